//! Passes that write notes, by hand and by threads.

ghost use Rattle.std.specs.Prelude.{◌≡◌, ◌<◌};
ghost use Rattle.turn_lock.specs.Noting.{HasRoom, Noted};

use std::sync::Wait;
use std::test::Fail;
use std::thread;
use turn_lock::notes::{Notes, fan, many_notes, two_notes, write};
use turn_lock::{Pass, TurnLock};

// A thread that owns its pass writes a note.
fn written<W: Wait>(rt: &W, lock: &TurnLock<Notes>, mut pass: Pass<Notes>, note: u32) -> Pass<Notes>
    requires own { pass.lock ≡ lock.now }
    requires room { HasRoom pass }
    requires some { 0 < pass.left }
    ensures noted { Noted pass result note }
{
    write(rt, lock, &mut pass, note);
    pass
}

#[test]
fn two_threads_write_one_note_each(rt: HostRuntime) -> Result<(), Fail> {
    let Ok(mut notes) = Notes::new(rt.alloc()) else {
        panic!(rt; "no memory")
    };
    notes.push(4);
    let Ok(notes) = two_notes(&rt, rt.alloc(), notes, 5, 6) else {
        panic!(rt; "no memory")
    };
    let list = notes.as_slice();
    assert!(rt; list == [4, 5, 6].as_slice() || list == [4, 6, 5].as_slice());
    Ok(())
}

#[test]
fn sixteen_passes_write_one_note_each(rt: HostRuntime) -> Result<(), Fail> {
    let Ok(notes) = Notes::new(rt.alloc()) else {
        panic!(rt; "no memory")
    };
    let Ok((lock, mut pass)) = TurnLock::new(rt.alloc(), notes, 16) else {
        panic!(rt; "no memory")
    };
    fan(&rt, &lock, &mut pass, 16, 7);
    assert!(rt; pass.left() == 0);
    let notes = lock.close(pass);
    assert!(rt; notes.as_slice() == [7; 16].as_slice());
    Ok(())
}

#[test]
fn many_threads_write_one_note_each(rt: HostRuntime) -> Result<(), Fail> {
    let Ok(mut notes) = Notes::new(rt.alloc()) else {
        panic!(rt; "no memory")
    };
    notes.push(4);
    let Ok(notes) = many_notes(&rt, rt.alloc(), notes, 3, 7) else {
        panic!(rt; "no memory")
    };
    assert!(rt; notes.as_slice() == [4, 7, 7, 7].as_slice());
    Ok(())
}

#[test]
fn a_pass_crosses_to_another_thread_and_comes_back(rt: HostRuntime) -> Result<(), Fail> {
    let Ok(notes) = Notes::new(rt.alloc()) else {
        panic!(rt; "no memory")
    };
    let Ok((lock, pass)) = TurnLock::new(rt.alloc(), notes, 2) else {
        panic!(rt; "no memory")
    };
    let shared = &lock;
    let host = &rt;
    let (pass, ()) = thread::join(host, move || written(host, shared, pass, 5), || ());
    assert!(rt; pass.left() == 1);
    let notes = lock.close(pass);
    assert!(rt; notes.as_slice() == [5].as_slice());
    Ok(())
}
