// The line that starts a run: the lengths and the settings that it gives.
use record::{Settings, Span};
use script::words::Words;

// What such a line says; `space` counts frames of the sending ring.
#[derive(Clone, Copy)]
pub struct Start {
    pub length: usize,
    pub space: usize,
    pub settings: Settings,
}

// A number that is 0 or 1.
pub fn read_flag(words: &mut Words) -> Option<bool> {
    match words.number()? {
        0 => Some(false),
        1 => Some(true),
        _ => None,
    }
}

// `FROM TO`.
fn read_times(words: &mut Words) -> Option<Span> {
    Some(Span {
        from: words.number()?,
        to: words.number()?,
    })
}

// `0`, which is the span that holds no time, or `1 FROM TO`.
fn read_span(words: &mut Words) -> Option<Span> {
    if read_flag(words)? {
        read_times(words)
    } else {
        Some(Span::NONE)
    }
}

// `COUNT SPAN*`: at most 16 spans, and how many.
fn read_gone(words: &mut Words, gone: &mut [Span; record::SPANS]) -> Option<usize> {
    let count = usize::try_from(words.number()?).ok()?;
    if gone.len() < count {
        return None;
    }
    for span in &mut gone[..count] {
        *span = read_times(words)?;
    }
    Some(count)
}

// `DS MI CDC EVERY SLEEP SUSPEND COUNT SPAN*`.
fn read_settings(words: &mut Words) -> Option<Settings> {
    let mut gone = [Span::NONE; record::SPANS];
    Some(Settings {
        device_stack: read_flag(words)?,
        midi_in: read_flag(words)?,
        cdc: read_flag(words)?,
        midi_every: words.number()?,
        sleep: read_span(words)?,
        suspend: read_span(words)?,
        spans: read_gone(words, &mut gone)?,
        gone,
    })
}

impl Start {
    // `LEN SPACE` and the settings, which end the line.
    pub fn read(words: &mut Words) -> Option<Start> {
        let start = Start {
            length: usize::try_from(words.number()?).ok()?,
            space: usize::try_from(words.number()?).ok()?,
            settings: read_settings(words)?,
        };
        words.end()?;
        let fits = bus::power(start.length) && matches!(start.space, 7..=record::RING_FRAMES);
        if fits { Some(start) } else { None }
    }
}
