//! Where the ordered pairs of neighbours stand in rows: a row for each device, with a place for each of its neighbours.

ghost use Rattle.std.specs.Prelude.{◌≡◌, ◌<◌, IfSome, IfNone, true, false, length, slice_index};
ghost use Rattle.fc_values.specs.Fields.{is_in};
ghost use Rattle.topology.specs.Networks.{IsNetwork};
ghost use Rattle.topology.specs.Nearby.{neighbour_numbers};
ghost use Rattle.message_links.specs.MailCores.{reaches};
ghost use Rattle.mail_book.specs.Pairs.{AtPair};

use topology::Network;

/// The place of an ordered pair of neighbours: the row of the receiver, and the place of the sender in it.
pub fn pair_place(net: &Network, from: u32, to: u32) -> Option<(usize, usize)>
    ensures place { IfSome result (AtPair net.now from to) }
    ensures none { IfNone result (reaches net.now from to ≡ false) }
    ensures network { IsNetwork net.now }
{
    let neighbours = net.neighbours(to);
    let row = net.place(to)?;
    let at = near_place(neighbours, from)?;
    Some((row, at))
}

// The place of a device among neighbours.
fn near_place(near: &[(u32, u32)], device: u32) -> Option<usize>
    ensures there { IfSome result (λ i. slice_index (neighbour_numbers near.now) i ≡ device) }
    ensures within { IfSome result (λ i. i < length near.now) }
    ensures is_in { IfSome result (λ i. is_in device (neighbour_numbers near.now) ≡ true) }
    ensures none { IfNone result (is_in device (neighbour_numbers near.now) ≡ false) }
{
    for (at, neighbour) in near.iter().enumerate() {
        if neighbour.0 == device {
            return Some(at);
        }
    }
    None
}
