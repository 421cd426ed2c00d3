//! The neighbours of a device, as a network keeps them beside its links.

ghost use Rattle.std.specs.Prelude.{◌≡◌, ◌<◌, length, nat_lt};
ghost use Rattle.std.specs.List.{prefix_len};
ghost use Rattle.fc_values.specs.Fields.{is_in};
ghost use Rattle.topology.specs.Nearby.{neighbour_numbers, drop_near, insert_near};

use arrayvec::ArrayVec;
use fc_values::MOST_LINKS;

/// The neighbours of a device, rising, with the weights of the links.
pub(crate) type Nearby = ArrayVec<(u32, u32), MOST_LINKS>;

/// The same neighbours.
pub(crate) fn copy_near(near: &Nearby) -> Nearby
    ensures { result.items ≡ near.now.items }
{
    let mut copied = ArrayVec::new();
    for one in near.as_slice() {
        copied.push(*one);
    }
    copied
}

/// Whether a device is among the neighbours.
pub(crate) fn is_near(near: &Nearby, device: u32) -> bool
    ensures { result ≡ is_in device (neighbour_numbers near.now.items) }
{
    for one in near.as_slice() {
        if one.0 == device {
            return true;
        }
    }
    false
}

/// Removes a device from the neighbours, if it is one.
pub(crate) fn drop_near(near: &mut Nearby, device: u32)
    ensures { near.new.items ≡ drop_near device near.old.items }
{
    near.retain(|one| one.0 != device);
}

/// Puts a neighbour in place of that of its number, or adds it.
pub(crate) fn put_near(near: &mut Nearby, device: u32, weight: u32)
    requires { length (drop_near device near.old.items) < MOST_LINKS }
    ensures { near.new.items ≡ insert_near device weight (drop_near device near.old.items) }
{
    drop_near(near, device);
    let at = place_near(near.as_slice(), device);
    near.insert(at, (device, weight));
}

// How many neighbours come before a number.
fn place_near(near: &[(u32, u32)], device: u32) -> usize
    ensures { result ≡ prefix_len (λ n. nat_lt n.0 device) near.now }
{
    near.iter().take_while(|one| one.0 < device).count()
}
