//! The exports that took the same branch.

ghost use Rattle.std.specs.Prelude.{◌≡◌, ◌<◌, ◌≤◌, IfOk, length, Some};
ghost use Rattle.fc_values.specs.Values.{local_of};
ghost use Rattle.fc_values.specs.Exports.{slots_of};
ghost use Rattle.alignment.specs.Environments.{keeps_truth as truth_is_kept};
ghost use Rattle.alignment.specs.Slots.{OwnHas, NearHave, slot_keeps, flat_branch};
ghost use Rattle.alignment.specs.References.{flat_of, nears_of, that_keep};

use crate::environments::{Env, NearRef};
use fc_values::{Local, MOST_LINKS, Memory, Slot};
use smallvec::SmallVec;
use std::alloc::Global;

/// The exports that took the same branch: those that keep this truth value in the slot of an `if`.
#[inline(never)]
pub fn same_branch<'a>(
    alloc: Global,
    env: &Env<'a>,
    slot: u32,
    truth: bool,
) -> Result<Env<'a>, Memory>
    requires own { OwnHas slot (flat_of env.now).own }
    requires near { NearHave slot (flat_of env.now).near }
    ensures { IfOk result (λ e. flat_of e ≡ flat_branch slot truth (flat_of env.now)) }
{
    let near = near_branch(alloc, &env.near, slot, truth)?;
    let own = match env.own {
        Some(slots) => {
            if keeps(slots, slot, truth) {
                Some(slots)
            } else {
                None
            }
        }
        None => None,
    };
    Ok(Env { own, near })
}

// The neighbours that keep a truth value in a slot.
fn near_branch<'a>(
    alloc: Global,
    all: &[NearRef<'a>],
    slot: u32,
    truth: bool,
) -> Result<SmallVec<NearRef<'a>, MOST_LINKS>, Memory>
    requires { NearHave slot (nears_of all.now) }
    ensures kept { IfOk result (λ v. nears_of v.items ≡ that_keep slot truth (nears_of all.now)) }
    ensures fewer { IfOk result (λ v. length v.items ≤ length all.now) }
{
    let mut near = SmallVec::new(alloc);
    for n in all {
        if keeps(n.slots, slot, truth) {
            near.push(*n)?;
        }
    }
    Ok(near)
}

// Whether a slot is kept, with this truth value.
fn keeps(slots: &[Slot], slot: u32, truth: bool) -> bool
    requires { slot < length (slots_of slots.now) }
    ensures { result ≡ slot_keeps slot truth (slots_of slots.now) }
{
    let s = &slots[slot as usize];
    s.kept && is_truth(&s.value, truth)
}

// Whether a value is this truth value.
fn is_truth(value: &Local, truth: bool) -> bool
    ensures { result ≡ truth_is_kept truth (Some (local_of value.now)) }
{
    match value {
        Local::Bool(b) => *b == truth,
        _ => false,
    }
}
