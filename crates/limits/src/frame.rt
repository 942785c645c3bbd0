// A microframe on real areas of the lengths of a case.
use crate::calls::{Seen, addresses};
use crate::case::{Field, Row};
use crate::marks::{MARK, SENDING, WORD_MARK, changed};

// The areas that a microframe may write.
#[derive(Drop)]
struct Areas {
    dynamic: [u8; record::RECEIVE],
    sram: [u8; record::RECEIVE],
    page: [u8; record::RECEIVE],
    reply: [u8; record::RECEIVE],
    config: [u8; record::RECEIVE],
    receive: [u8; record::RECEIVE],
    cables: [u8; record::RECEIVE],
    received: [u32; 576_012],
}

impl Areas {
    // Whether they hold marks alone.
    fn are_marks(&self) -> bool {
        (changed(&self.dynamic, MARK) == 0)
            & (changed(&self.sram, MARK) == 0)
            & (changed(&self.page, MARK) == 0)
            & (changed(&self.reply, MARK) == 0)
            & (changed(&self.config, MARK) == 0)
            & (changed(&self.receive, MARK) == 0)
            & (changed(&self.cables, MARK) == 0)
            & (changed(&self.received, WORD_MARK) == 0)
    }
}

// On the first of each area, as much as the case says, and on the record's own arrays.
fn run(row: &Row, areas: &mut Areas, sending: &[u32]) -> Seen {
    let mut setups = addresses();
    let mut midi = [MARK; record::QUEUE];
    let mut serial = [MARK; record::QUEUE];
    let mut device = [MARK; record::DEVICE];
    let before = row.state();
    let mut state = before;
    let done = usbhost::run_microframe(
        &mut state,
        row.settings(),
        row.packers(),
        &mut setups,
        &mut midi,
        &mut serial,
        &mut device,
        row.first_mut(Field::Dynamic, &mut areas.dynamic),
        row.first_mut(Field::Static, &mut areas.sram),
        row.first_mut(Field::Page, &mut areas.page),
        row.first_mut(Field::ReplyArea, &mut areas.reply),
        row.first_mut(Field::ConfigArea, &mut areas.config),
        row.first_mut(Field::ReceiveArea, &mut areas.receive),
        row.first_mut(Field::CablesArea, &mut areas.cables),
        row.first_mut(Field::ReceivedRing, &mut areas.received),
        row.first(Field::SendingRing, sending),
        0,
    );
    let queues = (changed(&midi, MARK) == 0) & (changed(&serial, MARK) == 0);
    let arrays = (setups == addresses()) & queues & (changed(&device, MARK) == 0);
    Seen::judged(done, (state == before) & arrays & areas.are_marks())
}

pub fn microframe(row: &Row) -> Seen {
    let mut areas = Areas {
        dynamic: [MARK; record::RECEIVE],
        sram: [MARK; record::RECEIVE],
        page: [MARK; record::RECEIVE],
        reply: [MARK; record::RECEIVE],
        config: [MARK; record::RECEIVE],
        receive: [MARK; record::RECEIVE],
        cables: [MARK; record::RECEIVE],
        received: [WORD_MARK; 576_012],
    };
    run(row, &mut areas, &SENDING)
}
