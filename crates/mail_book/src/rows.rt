//! Rows of letters: a row for each device, in the order of the network, with what is kept for each of its neighbours.

ghost use Rattle.std.specs.Prelude.{◌≡◌, IfOk, OnOk, length, map};
ghost use Rattle.fc_nodes.specs.Program.{Unfolding};
ghost use Rattle.value_trees.specs.Snaps.{tree_of, near_copy, IsExportOf, NearAreExports};
ghost use Rattle.topology.specs.Networks.{numbers};
ghost use Rattle.mail_book.specs.Pairs.{AreRows};
ghost use Rattle.mail_book.specs.Letters.{AllLetters, AllQuiet, SameRow};
ghost use Rattle.mail_book.specs.Rows.{lists_of, AllRows, SameRows, AreQuiet, Posts, PostsTo, heard_copies};

use crate::letters::{Letters, Message, copy_letters, no_letters, post};
use crate::pairs::pair_place;
use fc_values::Memory;
use std::alloc::Global;
use topology::Network;
use value_trees::{Near, Published};

/// An export that a device sends, and the position of the end that sends it; none for what a start holds.
#[derive(Drop)]
pub(crate) struct Sending<'a> {
    pub(crate) device: u32,
    pub(crate) export: &'a Published,
    pub(crate) sent: Option<usize>,
}

/// Rows in which nothing was heard and nothing is in transit.
pub(crate) fn no_rows(alloc: Global, net: &Network) -> Result<Vec<Vec<Letters>>, Memory>
    ensures shape { IfOk result (λ rows. AreRows net.now (numbers net.now.devices) (lists_of rows.items)) }
    ensures quiet { IfOk result (λ rows. AreQuiet (lists_of rows.items)) }
{
    let mut rows = Vec::new(alloc);
    for device in net.devices() {
        rows.push(no_row(alloc, net.neighbours(device.id).len())?)?;
    }
    Ok(rows)
}

// A row of so many places.
fn no_row(alloc: Global, count: usize) -> Result<Vec<Letters>, Memory>
    ensures long { IfOk result (λ row. length row.items ≡ count) }
    ensures quiet { IfOk result (λ row. AllQuiet row.items) }
{
    let mut row = Vec::new(alloc);
    for _ in 0..count {
        row.push(no_letters(alloc))?;
    }
    Ok(row)
}

/// A copy of rows.
pub(crate) fn copy_rows(alloc: Global, rows: &[Vec<Letters>]) -> Result<Vec<Vec<Letters>>, Memory>
    ensures { IfOk result (λ copies. SameRows (lists_of rows.now) (lists_of copies.items)) }
{
    let mut copies = Vec::new(alloc);
    for row in rows {
        copies.push(copy_row(alloc, row)?)?;
    }
    Ok(copies)
}

fn copy_row(alloc: Global, row: &[Letters]) -> Result<Vec<Letters>, Memory>
    ensures { IfOk result (λ copies. SameRow row.now copies.items) }
{
    let mut copies = Vec::new(alloc);
    for letters in row {
        copies.push(copy_letters(alloc, letters)?)?;
    }
    Ok(copies)
}

/// The neighbours of which something was heard, with it: a row for these neighbours.
pub(crate) fn heard_in(
    alloc: Global,
    neighbours: &[(u32, u32)],
    row: &[Letters],
) -> Result<Vec<Near>, Memory>
    requires { length row.now ≡ length neighbours.now }
    ensures near { (U : Unfolding)
        → IfOk result (λ ns. map (near_copy U) ns.items ≡ heard_copies U neighbours.now row.now) }
    ensures exports { (U : Unfolding) → AllLetters U row.now → IfOk result (λ ns. NearAreExports U ns.items) }
{
    let mut near = Vec::new(alloc);
    for (at, (device, weight)) in neighbours.iter().enumerate() {
        if let Some(export) = &row[at].heard {
            let export = export.share()?;
            near.push(Near {
                device: *device,
                weight: *weight,
                export,
            })?;
        }
    }
    Ok(near)
}

/// Sends an export to each neighbour of a device.
pub(crate) fn post_all(
    net: &Network,
    rows: &mut Vec<Vec<Letters>>,
    sending: &Sending<'_>,
) -> Result<(), Memory>
    requires { AreRows net.now (numbers net.now.devices) (lists_of rows.old.items) }
    ensures posts { (U : Unfolding) → AllRows U (lists_of rows.old.items) → IsExportOf U sending.now.export.now
        → OnOk result (Posts U net.now sending.now.device sending.now.sent (tree_of U sending.now.export.now)
        (lists_of rows.old.items) (lists_of rows.new.items)) }
    ensures shape { AreRows net.now (numbers net.now.devices) (lists_of rows.new.items) }
    ensures letters { (U : Unfolding) → AllRows U (lists_of rows.old.items) → IsExportOf U sending.now.export.now
        → AllRows U (lists_of rows.new.items) }
{
    for (neighbour, _) in net.neighbours(sending.device) {
        post_to(net, rows, sending, *neighbour)?;
    }
    Ok(())
}

/// Sends a share of an export to a neighbour.
pub(crate) fn post_to(
    net: &Network,
    rows: &mut Vec<Vec<Letters>>,
    sending: &Sending<'_>,
    to: u32,
) -> Result<(), Memory>
    requires { AreRows net.now (numbers net.now.devices) (lists_of rows.old.items) }
    ensures posts { (U : Unfolding) → AllRows U (lists_of rows.old.items) → IsExportOf U sending.now.export.now
        → OnOk result (PostsTo U net.now sending.now.device to sending.now.sent
        (tree_of U sending.now.export.now) (lists_of rows.old.items) (lists_of rows.new.items)) }
    ensures shape { AreRows net.now (numbers net.now.devices) (lists_of rows.new.items) }
    ensures letters { (U : Unfolding) → AllRows U (lists_of rows.old.items) → IsExportOf U sending.now.export.now
        → AllRows U (lists_of rows.new.items) }
{
    let Some((row, at)) = pair_place(net, sending.device, to) else {
        return Ok(());
    };
    let export = sending.export.share()?;
    let message = Message {
        export,
        sent: sending.sent,
    };
    post(&mut rows[row][at], message)
}
