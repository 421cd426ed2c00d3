//! Turns of a table by hand, over a book of two devices.

ghost use Rattle.std.specs.Prelude.{◌≡◌, ◌≤◌, ◌∷◌, ℕ, [], IfOk, IfSome, map, None};
ghost use Rattle.fc_values.specs.Types.{declarations_of};
ghost use Rattle.topology.specs.Networks.{net_device_of};
ghost use Rattle.topology.specs.Changes.{HaveNumbers, HaveInputs};
ghost use Rattle.firing_core.specs.Cores.{EditFits};
ghost use Rattle.firing_core.specs.CoreViews.{core_of};
ghost use Rattle.firing_core.specs.Entries.{edit_of};
ghost use Rattle.fc_nodes.specs.Program.{unfolding_of};
ghost use Rattle.export_table.specs.Passing.{IsPassOf, on_log};
ghost use Rattle.export_table.specs.Turns.{CanEnd};

use device_eval::{Scratch, fire};
use export_table::{Firing, Held, Shared};
use fc_nodes::{Node, Op, Unfolded};
use fc_values::{Declared, Local, LocalTy, Memory, Ty};
use firing_core::{Book, Core, Edit, Entry, Room};
use std::alloc::{AllocError, Global};
use std::sync::{Arc, Wait};
use std::test::Fail;
use topology::{Device, Network};
use turn_lock::Pass;

// A ceiling of 10, no inputs, and links of weight 1.
fn declared(alloc: Global) -> Declared
    ensures { declarations_of result ≡ record { ceiling = 10; inputs = []; least = 1; greatest = 1 } }
{
    Declared {
        ceiling: 10,
        inputs: Vec::new(alloc),
        metric: (1, 1),
    }
}

// The program whose value is 5 everywhere.
fn five(alloc: Global) -> Result<Unfolded, Memory>
    ensures { IfOk result (λ p. p.declared ≡ record { ceiling = 10; inputs = []; least = 1; greatest = 1 }) }
{
    let mut nodes = Vec::new(alloc);
    nodes.push(Node {
        op: Op::Lit(Local::Int(5)),
        ty: Ty::Local(LocalTy::Int),
        kids: Vec::new(alloc),
    })?;
    Unfolded::new(alloc, declared(alloc), nodes)
}

// A device without inputs.
fn device(alloc: Global, id: u32) -> Device
    ensures id { result.id ≡ id }
    ensures inputs { result.inputs.items ≡ [] }
{
    Device {
        id,
        inputs: Vec::new(alloc),
    }
}

// Two linked devices.
fn pair(alloc: Global) -> Result<Network, Fail>
    ensures { IfOk result (λ n. n.declared ≡ record { ceiling = 10; inputs = []; least = 1; greatest = 1 }) }
{
    let mut devices = Vec::with_capacity(alloc, 2)?;
    devices.push(device(alloc, 1))?;
    devices.push(device(alloc, 0))?;
    let Ok(mut net) = Network::new(alloc, declared(alloc), devices) else {
        return Err(Fail::new("no network"));
    };
    match net.link(0, 1, 1) {
        Ok(()) => Ok(net),
        Err(_) => Err(Fail::new("no link")),
    }
}

// The book of two linked devices without exports.
fn book(alloc: Global, program: &Arc<Unfolded>) -> Result<Book, Fail>
    requires { program.now.value.declared ≡ record { ceiling = 10; inputs = []; least = 1; greatest = 1 } }
    ensures program { IfOk result (λ b. b.program ≡ program.now.value) }
    ensures rests { IfOk result (λ b. (d : ℕ) → (core_of b.core).flying d ≡ None) }
{
    let net = pair(alloc)?;
    let core = Core::new(alloc, program, net, Vec::new(alloc), Vec::new(alloc))?;
    let Ok(mut book) = Book::new(alloc, program.clone()?, core) else {
        return Err(Fail::new("no book"));
    };
    book.settle(alloc)?;
    Ok(book)
}

// Begins a firing, where one may begin, the pass has a turn, and there is memory.
fn begin<W: Wait>(
    rt: &W,
    alloc: Global,
    table: &Shared,
    program: &Arc<Unfolded>,
    pass: &mut Pass<Held>,
) -> Option<Firing>
    requires own { IsPassOf table.now pass.old }
    requires program { program.now.value ≡ table.now.opening.program }
    ensures may_end { IfSome result (CanEnd table.now.opening (on_log pass.new)) }
    ensures own { IsPassOf table.now pass.new }
    ensures same { (pass.new.name ≡ pass.old.name) × (pass.new.out ≡ pass.old.out) }
{
    let Ok(room) = Room::new(alloc, program) else {
        return None;
    };
    if pass.left() == 0 {
        return None;
    }
    match table.next(rt, pass, room) {
        Ok(firing) => Some(firing),
        Err(_) => None,
    }
}

// Evaluates what was begun, and ends it, where the pass has a turn and there is memory.
fn end<W: Wait>(
    rt: &W,
    alloc: Global,
    table: &Shared,
    program: &Arc<Unfolded>,
    pass: &mut Pass<Held>,
    firing: Firing,
)
    requires own { IsPassOf table.now pass.old }
    requires program { program.now.value ≡ table.now.opening.program }
    requires may_end { CanEnd table.now.opening (on_log pass.old) firing }
    ensures own { IsPassOf table.now pass.new }
    ensures same { (pass.new.name ≡ pass.old.name) × (pass.new.out ≡ pass.old.out) }
{
    let place = firing.place();
    let mut scratch = Scratch::new(alloc);
    let Ok(fired) = fire(alloc, &mut scratch, program, firing.into_snap()) else {
        return;
    };
    if pass.left() == 0 {
        return;
    }
    table.end(rt, pass, place, fired);
}

// Begins a firing and ends it, where one may begin.
fn fire_once<W: Wait>(
    rt: &W,
    alloc: Global,
    table: &Shared,
    program: &Arc<Unfolded>,
    pass: &mut Pass<Held>,
)
    requires own { IsPassOf table.now pass.old }
    requires program { program.now.value ≡ table.now.opening.program }
    ensures own { IsPassOf table.now pass.new }
    ensures same { (pass.new.name ≡ pass.old.name) × (pass.new.out ≡ pass.old.out) }
{
    if let Some(firing) = begin(rt, alloc, table, program, pass) {
        end(rt, alloc, table, program, pass, firing);
    }
}

// Edits the book, where its core allows it and the pass has a turn.
fn edit<W: Wait>(rt: &W, alloc: Global, table: &Shared, pass: &mut Pass<Held>, edit: Edit)
    requires own { IsPassOf table.now pass.old }
    requires fits { EditFits (unfolding_of table.now.opening.program) (edit_of edit) }
    ensures own { IsPassOf table.now pass.new }
    ensures same { (pass.new.name ≡ pass.old.name) × (pass.new.out ≡ pass.old.out) }
{
    if pass.left() == 0 {
        return;
    }
    let _ = table.edit(rt, alloc, pass, edit);
}

// What is done next: the slow pass begins a firing or ends it; the other one fires, or edits.
#[derive(Clone, Copy)]
enum Turn {
    Begin,
    End,
    Fire,
    Unlink,
    Leave,
    Join,
}

// One turn, where the slow pass may hold a firing.
fn take_turn<W: Wait>(
    rt: &W,
    alloc: Global,
    table: &Shared,
    program: &Arc<Unfolded>,
    pass: &mut Pass<Held>,
    slow: &mut Pass<Held>,
    held: Option<Firing>,
    turn: Turn,
) -> Option<Firing>
    requires own { IsPassOf table.now pass.old × IsPassOf table.now slow.old }
    requires program { program.now.value ≡ table.now.opening.program }
    requires may_end { IfSome held (CanEnd table.now.opening (on_log slow.old)) }
    ensures may_end { IfSome result (CanEnd table.now.opening (on_log slow.new)) }
    ensures own { IsPassOf table.now pass.new × IsPassOf table.now slow.new }
    ensures same { (pass.new.name ≡ pass.old.name) × (pass.new.out ≡ pass.old.out) }
    ensures slow { (slow.new.name ≡ slow.old.name) × (slow.new.out ≡ slow.old.out) }
{
    match turn {
        Turn::Begin => return begin(rt, alloc, table, program, slow),
        Turn::End => {
            if let Some(firing) = held {
                end(rt, alloc, table, program, slow, firing);
            }
            return None;
        }
        Turn::Fire => fire_once(rt, alloc, table, program, pass),
        Turn::Unlink => edit(rt, alloc, table, pass, Edit::Unlink(0, 1)),
        Turn::Leave => edit(rt, alloc, table, pass, Edit::Leave(0)),
        Turn::Join => edit(rt, alloc, table, pass, Edit::Join(device(alloc, 0))),
    }
    held
}

// One turn after another.
fn turns<W: Wait>(
    rt: &W,
    alloc: Global,
    table: &Shared,
    program: &Arc<Unfolded>,
    pass: &mut Pass<Held>,
    slow: &mut Pass<Held>,
    script: &[Turn],
)
    requires own { IsPassOf table.now pass.old × IsPassOf table.now slow.old }
    requires program { program.now.value ≡ table.now.opening.program }
    ensures own { IsPassOf table.now pass.new × IsPassOf table.now slow.new }
    ensures same { (pass.new.name ≡ pass.old.name) × (pass.new.out ≡ pass.old.out) }
    ensures slow { (slow.new.name ≡ slow.old.name) × (slow.new.out ≡ slow.old.out) }
{
    let mut held = None;
    'turns: for next in script {
        held = take_turn(rt, alloc, table, program, pass, slow, held, *next);
    }
}

// A log in letters: B0 and E0 for a begin and an end of device 0, I for an idle entry, and X for an edit.
fn written(alloc: Global, log: &[Entry]) -> Result<Vec<u8>, AllocError> {
    let mut text = Vec::new(alloc);
    for entry in log {
        match entry {
            Entry::Begin(0) => text.extend_from_slice(b"B0")?,
            Entry::Begin(_) => text.extend_from_slice(b"B1")?,
            Entry::End(0) => text.extend_from_slice(b"E0")?,
            Entry::End(_) => text.extend_from_slice(b"E1")?,
            Entry::Idle => text.push(b'I')?,
            Entry::Edit(_) => text.push(b'X')?,
        }
    }
    Ok(text)
}

// Whether both devices have the value 5.
fn both_show(book: &Book) -> bool {
    for device in 0..2 {
        match book.core().export(device) {
            Some(export) if matches!(export.value, Local::Int(5)) => {}
            _ => return false,
        }
    }
    true
}

// The log after a script of turns, in a table for so many rounds.
fn logged<W: Wait>(rt: &W, alloc: Global, rounds: u32, script: &[Turn]) -> Result<Vec<u8>, Fail> {
    let program = Arc::new(alloc, five(alloc)?)?;
    let Ok((table, mut pass)) = Shared::over(alloc, book(alloc, &program)?, rounds, 14) else {
        return Err(Fail::new("no table"));
    };
    let mut slow = table.split(&mut pass, 4);
    turns(rt, alloc, &table, &program, &mut pass, &mut slow, script);
    table.join(&mut pass, slow);
    let book = table.close(pass);
    if !both_show(&book) {
        return Err(Fail::new("a value is missing"));
    }
    Ok(written(alloc, book.log())?)
}

// In the first the second round waits for the end of device 0. In the second device 0 leaves once it has landed, joins
// anew, and fires once more.
#[test]
fn turns_by_hand(rt: HostRuntime) -> Result<(), Fail> {
    use Turn::{Begin, End, Fire, Join, Leave, Unlink};
    let rows = [
        (
            2,
            [Begin, Fire, Fire, End, Fire, Begin, Fire, End],
            b"B0B1E1IE0B0E0B1IE1".as_slice(),
        ),
        (
            1,
            [Begin, Leave, Unlink, End, Leave, Join, Fire, Fire],
            b"B0IXE0XXB0E0B1E1".as_slice(),
        ),
    ];
    for (rounds, script, log) in rows {
        assert_eq!(rt; logged(&rt, rt.alloc(), rounds, &script)?.as_slice(), log);
    }
    Ok(())
}
