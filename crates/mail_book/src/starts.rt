//! What the start of a mail log holds: exports that were heard, and messages in transit.

ghost use Rattle.std.specs.Prelude.{OnOk, [], ◌∷◌};
ghost use Rattle.fc_nodes.specs.Program.{Unfolding};
ghost use Rattle.value_trees.specs.Snaps.{IsExportOf};
ghost use Rattle.topology.specs.Networks.{numbers};
ghost use Rattle.message_links.specs.MailCores.{Reaches};
ghost use Rattle.mail_book.specs.Pairs.{AreRows};
ghost use Rattle.mail_book.specs.Rows.{lists_of, AllRows};
ghost use Rattle.mail_book.specs.Starts.{AreHeld, Hears, Sends, post_of, post_values};

use crate::letters::{Letters, hear};
use crate::pairs::pair_place;
use crate::rows::{Sending, post_to};
use fc_values::{Export, Memory, copy_export};
use std::alloc::Global;
use topology::Network;
use value_trees::Published;

/// An export from a device to another: one that was heard, or one in transit.
#[derive(Drop)]
pub struct Post {
    pub from: u32,
    pub to: u32,
    pub export: Export,
}

/// Exports are heard, one after another.
pub(crate) fn hear_all(
    alloc: Global,
    net: &Network,
    rows: &mut Vec<Vec<Letters>>,
    posts: &[Post],
) -> Result<(), Memory>
    requires { AreRows net.now (numbers net.now.devices) (lists_of rows.old.items) }
    ensures shape { AreRows net.now (numbers net.now.devices) (lists_of rows.new.items) }
    ensures hears { (U : Unfolding) → AllRows U (lists_of rows.old.items) → AreHeld U net.now posts.now
        → OnOk result (Hears U net.now (post_values U posts.now) (lists_of rows.old.items) (lists_of rows.new.items)) }
{
    for post in posts {
        hear_one(alloc, net, rows, post)?;
    }
    Ok(())
}

// An export is heard.
fn hear_one(
    alloc: Global,
    net: &Network,
    rows: &mut Vec<Vec<Letters>>,
    post: &Post,
) -> Result<(), Memory>
    requires { AreRows net.now (numbers net.now.devices) (lists_of rows.old.items) }
    ensures shape { AreRows net.now (numbers net.now.devices) (lists_of rows.new.items) }
    ensures hears { (U : Unfolding) → AllRows U (lists_of rows.old.items) → Reaches net.now post.now.from post.now.to
        → IsExportOf U post.now.export
        → OnOk result (Hears U net.now (post_of U post.now ∷ []) (lists_of rows.old.items) (lists_of rows.new.items)) }
{
    let Some((row, at)) = pair_place(net, post.from, post.to) else {
        return Ok(());
    };
    let export = Published::new(alloc, copy_export(alloc, &post.export)?)?;
    hear(&mut rows[row][at], export);
    Ok(())
}

/// Exports are sent, one after another, by no end of a log.
pub(crate) fn send_all(
    alloc: Global,
    net: &Network,
    rows: &mut Vec<Vec<Letters>>,
    posts: &[Post],
) -> Result<(), Memory>
    requires { AreRows net.now (numbers net.now.devices) (lists_of rows.old.items) }
    ensures shape { AreRows net.now (numbers net.now.devices) (lists_of rows.new.items) }
    ensures sends { (U : Unfolding) → AllRows U (lists_of rows.old.items) → AreHeld U net.now posts.now
        → OnOk result (Sends U net.now (post_values U posts.now) (lists_of rows.old.items) (lists_of rows.new.items)) }
{
    for post in posts {
        let export = Published::new(alloc, copy_export(alloc, &post.export)?)?;
        let sending = Sending {
            device: post.from,
            export: &export,
            sent: None,
        };
        post_to(net, rows, &sending, post.to)?;
    }
    Ok(())
}
