// A microframe on the host record behind a reference.
#![tactic(auto)]

ghost use Rattle.std.specs.Prelude.{◌≡◌};
ghost use Rattle.bus.specs.Memory.{shown};
ghost use Rattle.record.specs.World.{lent};
ghost use Rattle.usbhost.specs.Frame.{framed, frame_answer};
ghost use Rattle.thin.specs.Thin.{answered};

use record::Answer;
use refusal::Refusal;
use usbhost::Host;

// One microframe of 125 microseconds at a time, on the record behind a reference.
pub fn microframe(
    host: &mut Host,
    time: u64,
    dynamic: &mut [u8],
    sram: &mut [u8],
    page: &mut [u8],
    reply: &mut [u8],
    config: &mut [u8],
    receive: &mut [u8],
    cables: &mut [u8],
    received: &mut [u32],
    sending: &[u32],
) -> Result<Answer, Refusal>
    ensures { (answered result host.new ≡ frame_answer time host.old (lent (shown dynamic.old sram.old page.old) reply.old config.old receive.old cables.old received.old sending.now)) × (lent (shown dynamic.new sram.new page.new) reply.new config.new receive.new cables.new received.new sending.now ≡ (framed time host.old (lent (shown dynamic.old sram.old page.old) reply.old config.old receive.old cables.old received.old sending.now)).lent) }
{
    let f = Host::microframe(
        *host, time, dynamic, sram, page, reply, config, receive, cables, received, sending,
    )?;
    *host = f.host;
    Ok(Answer {
        received: f.received,
        dropped: f.dropped,
        retired: f.retired,
    })
}
