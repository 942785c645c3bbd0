// The interface choice of a configuration descriptor.
#![tactic(auto)]

ghost use Rattle.std.specs.Prelude.{◌≡◌, ◌&&◌, ◌≤◌, [], length, position, is_some, eqb};
ghost use Rattle.bits.specs.Pick.{pick};
ghost use Rattle.config.specs.Config.{member, interfaces, is_endpoint, counts, packet_size, placed, chosen, step, parsed};
ghost use Rattle.config.specs.Pairs.{listed, place_of};
ghost use Rattle.config.specs.Table.{info_of, choice_of, reading_of, walk_of, endpoint_read, SplitsWhole};

use std::marker::Model;

// An interface, and the alternate that was taken for it.
#[derive(Clone, Copy)]
pub struct Pair {
    pub interface: u8,
    pub alternate: u8,
}

// The pairs by first appearance of their interfaces, of which no two are the same.
#[derive(Clone, Copy)]
pub struct Pairs {
    places: [Pair; 256],
    count: usize,
}

impl Model for Pairs {
    ghost use Rattle.std.specs.Prelude.{ℕ, List, length, take, refl};
    ghost use Rattle.config.specs.Pairs.{listed, placed_in, Holds};
    ghost use Rattle.config.specs.Inverse.{count_back, places_back};

    ghost Value = { List (ℕ × ℕ) };

    ghost view = { λ p. listed (take p.count p.places) };

    ghost invariant = { λ p. Holds p.places p.count };

    ghost inverse = { λ ps. record { places = placed_in ps; count = length ps } };

    ghost inverse_ok = { λ p h. rw (places_back p.places p.count h, count_back p.places p.count h) refl };
}

impl Pairs {
    // No pair.
    #[tactic(auto, unfolding(crate::specs::Config::Distinct, crate::specs::Pairs::Below))]
    fn none() -> Self
        ensures { result ≡ [] }
    {
        // its two bytes differ, so that the places are filled without the C library's memset, which the archive for C would then need
        let filler = Pair {
            interface: 0,
            alternate: 1,
        };
        Pairs {
            places: [filler; 256],
            count: 0,
        }
    }

    // The pairs, in their order.
    pub fn as_slice(&self) -> &[Pair]
        ensures pairs { listed result.now ≡ self.now }
        ensures few { length result.now ≤ 256 }
    {
        &self.places[..self.count]
    }

    // The place of an interface's pair.
    fn find(&self, interface: u8) -> Option<usize>
        ensures place { result ≡ place_of interface self.now }
        ensures known { is_some result ≡ member interface (interfaces self.now) }
    {
        find(self.as_slice(), interface)
    }

    // The pair of an interface, whose place was found, takes the alternate; an interface that has no pair yet gets one, at the end.
    fn place(&mut self, found: Option<usize>, interface: u8, alternate: u8)
        requires { found ≡ place_of interface self.old }
        ensures { self.new ≡ placed interface alternate self.old }
    {
        let pair = Pair {
            interface,
            alternate,
        };
        match found {
            Some(k) => {
                self.places[k] = pair;
            }
            None => {
                self.places[self.count] = pair;
                self.count += 1;
            }
        }
    }
}

// The place of an interface's pair.
fn find(pairs: &[Pair], interface: u8) -> Option<usize>
    ensures { result ≡ position (λ p. eqb p.interface interface) pairs.now }
{
    pairs.iter().position(|pair| pair.interface == interface)
}

// The pairs, and the packet size of each direction.
#[derive(Clone, Copy)]
pub struct ConfigInfo {
    pub pairs: Pairs,
    pub ob_in_packet: u32,
    pub ob_out_packet: u32,
}

impl ConfigInfo {
    // The size slot of a direction.
    fn size(&self, input: bool) -> u32
        ensures { result ≡ pick input self.now.ob_in_packet self.now.ob_out_packet }
    {
        if input {
            self.ob_in_packet
        } else {
            self.ob_out_packet
        }
    }

    // An endpoint that counts: its alternate and size are taken, unless its interface has a pair and the size is below the slot's.
    #[tactic(auto, unfolding(crate::specs::Config::chosen))]
    fn choose(&mut self, reading: Interface, input: bool, size: u32)
        ensures { choice_of self.new ≡ chosen (reading_of reading) input size (choice_of self.old) }
    {
        let found = self.pairs.find(reading.number);
        let known = found.is_some();
        if known & (size < self.size(input)) {
            return;
        }
        self.pairs.place(found, reading.number, reading.alternate);
        if input {
            self.ob_in_packet = size;
        } else {
            self.ob_out_packet = size;
        }
    }
}

// The interface that the endpoints which follow belong to.
#[derive(Clone, Copy)]
struct Interface {
    number: u8,
    alternate: u8,
    class: u8,
}

impl Interface {
    // Whether a descriptor is an endpoint's that counts in this interface.
    fn counts(self, x: &[u8]) -> bool
        requires { 2 ≤ length x.now }
        ensures { result ≡ (is_endpoint x.now && counts (reading_of self) x.now) }
    {
        x[1] == 5 && 7 <= x.len() && self.class == 0xFF && self.alternate != 0 && x[3] & 3 == 3
    }
}

// The packet size of an endpoint.
fn packet_size(x: &[u8]) -> u32
    requires { 7 ≤ length x.now }
    ensures { result ≡ packet_size x.now }
{
    u32::from(u16::from_le_bytes([x[4], x[5]])) & 0x7FF
}

// The walk over the descriptors: the interface being read, and the choice so far.
#[derive(Clone, Copy)]
struct Walk {
    reading: Interface,
    choice: ConfigInfo,
}

impl Walk {
    // An endpoint that counts may be chosen.
    fn endpoint(&mut self, x: &[u8])
        requires { 2 ≤ length x.now }
        ensures { walk_of self.new ≡ endpoint_read x.now (walk_of self.old) }
    {
        if !self.reading.counts(x) {
            return;
        }
        let input = x[2] & 0x80 != 0;
        self.choice.choose(self.reading, input, packet_size(x));
    }

    // One descriptor: an endpoint's, an interface's, or one that is passed over.
    #[tactic(auto, unfolding(crate::specs::Config::step))]
    fn step(&mut self, x: &[u8])
        requires { 2 ≤ length x.now }
        ensures { walk_of self.new ≡ step x.now (walk_of self.old) }
    {
        self.endpoint(x);
        if (x[1] == 4) & (9 <= x.len()) {
            self.reading = Interface {
                number: x[2],
                alternate: x[3],
                class: x[5],
            };
        }
    }
}

// The first descriptor of some bytes, where it is whole, and the bytes behind it.
fn split_whole(d: &[u8]) -> Option<(&[u8], &[u8])>
    ensures { SplitsWhole d.now result }
{
    let n = usize::from(*d.first()?);
    if n < 2 || d.len() < n {
        return None;
    }
    Some(d.split_at(n))
}

// What the bytes of a configuration descriptor ask for.
pub fn parse_config(d: &[u8]) -> ConfigInfo
    ensures { result ≡ info_of (parsed d.now) }
{
    let mut walk = Walk {
        reading: Interface {
            number: 0,
            alternate: 0,
            class: 0,
        },
        choice: ConfigInfo {
            pairs: Pairs::none(),
            ob_in_packet: 0,
            ob_out_packet: 0,
        },
    };
    let mut rest = d;
    while let Some((descriptor, behind)) = split_whole(rest) {
        walk.step(descriptor);
        rest = behind;
    }
    walk.choice
}

// The block length and the channels that the host sends.
#[derive(Clone, Copy)]
pub struct OutBlock {
    pub block: u32,
    pub channels: u32,
}
