//! What was seen of the ordered pairs of neighbours in a round.

ghost use Rattle.std.specs.Prelude.{◌≡◌, ◌&&◌, ◌||◌, IfOk, OnOk, if◌then◌else◌, map, not, false, length, replicate};
ghost use Rattle.topology.specs.Networks.{near as near_of};
ghost use Rattle.topology.specs.Nearby.{neighbour_numbers};
ghost use Rattle.message_links.specs.MailCores.{pushed, without};
ghost use Rattle.mail_book.specs.MailViews.{mail_of};
ghost use Rattle.mail_count.specs.Seen.{oldest_own};
ghost use Rattle.mail_count.specs.Marks.{brought_row, brought_rows, own_row, own_rows};

use fc_values::Memory;
use mail_book::Mail;
use message_links::MOST_IN_TRANSIT;
use std::alloc::Global;

/// Of an ordered pair: which messages in transit the round sent, the oldest first, and whether it brought one.
#[derive(Drop)]
pub(crate) struct Bringing {
    pub(crate) own: Vec<bool>,
    pub(crate) brought: bool,
}

/// The ordered pairs from a device to each of its neighbours, of which the round has sent and brought nothing.
pub(crate) fn quiet_row(alloc: Global, mail: &Mail, from: u32) -> Result<Vec<Bringing>, Memory>
    ensures own { IfOk result (λ row. own_row row.items
        ≡ map (λ to. replicate (length ((mail_of mail.now).transit from to)) false)
        (neighbour_numbers (near_of mail.now.core.net from))) }
    ensures brought { IfOk result (λ row. brought_row row.items
        ≡ map (λ to. false) (neighbour_numbers (near_of mail.now.core.net from))) }
{
    let mut row = Vec::new(alloc);
    for (to, _) in mail.core().net().neighbours(from) {
        let own = vec![in alloc; false; mail.in_transit(from, *to)]?;
        row.push(Bringing {
            own,
            brought: false,
        })?;
    }
    Ok(row)
}

/// A message is sent to each neighbour; full lists first lose their oldest.
pub(crate) fn send_row(row: &mut [Bringing], own: bool) -> Result<(), Memory>
    ensures own { OnOk result (own_row row.new ≡ map (λ fs. pushed fs own) (own_row row.old)) }
    ensures brought { OnOk result (brought_row row.new ≡ brought_row row.old) }
{
    for bringing in row.iter_mut() {
        send(bringing, own)?;
    }
    Ok(())
}

fn send(bringing: &mut Bringing, own: bool) -> Result<(), Memory>
    ensures own { OnOk result (bringing.new.own.items ≡ pushed bringing.old.own.items own) }
    ensures brought { bringing.new.brought ≡ bringing.old.brought }
{
    if bringing.own.len() >= MOST_IN_TRANSIT {
        bringing.own.remove(0);
    }
    bringing.own.push(own)?;
    Ok(())
}

/// The oldest message is heard, once each device has fired or before. Answers how many more pairs have brought one of
/// the round.
pub(crate) fn hear(bringing: &mut Bringing, ready: bool) -> usize
    ensures own { bringing.new.own ≡ bringing.old.own }
    ensures brought { bringing.new.brought
        ≡ (bringing.old.brought || (ready && oldest_own bringing.old.own.items)) }
    ensures anew { result ≡ (if not bringing.old.brought && bringing.new.brought then 1 else 0) }
{
    if bringing.brought || !ready {
        return 0;
    }
    match bringing.own.first() {
        Some(true) => {
            bringing.brought = true;
            1
        }
        _ => 0,
    }
}

/// A message is lost, if there is one at this place from the oldest.
pub(crate) fn lose(bringing: &mut Bringing, place: usize)
    ensures own { bringing.new.own.items ≡ without place bringing.old.own.items }
    ensures brought { bringing.new.brought ≡ bringing.old.brought }
{
    if place < bringing.own.len() {
        bringing.own.remove(place);
    }
}

/// Nothing in transit is of the round, and it brought nothing.
pub(crate) fn clear_rows(rows: &mut [Vec<Bringing>])
    ensures own { own_rows rows.new ≡ map (λ r. map (λ fs. map (λ f. false) fs) r) (own_rows rows.old) }
    ensures brought { brought_rows rows.new ≡ map (λ r. map (λ b. false) r) (brought_rows rows.old) }
{
    for row in rows.iter_mut() {
        clear_row(row);
    }
}

fn clear_row(row: &mut [Bringing])
    ensures own { own_row row.new ≡ map (λ fs. map (λ f. false) fs) (own_row row.old) }
    ensures brought { brought_row row.new ≡ map (λ b. false) (brought_row row.old) }
{
    for bringing in row.iter_mut() {
        bringing.own.fill(false);
        bringing.brought = false;
    }
}
