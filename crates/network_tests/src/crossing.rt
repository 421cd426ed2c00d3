//! What threads hand to each other: programs, copies, firings, cores, rooms and books.

use device_eval::Fired;
use fc_nodes::Unfolded;
use firing_core::{Book, Core, Room};
use std::sync::Arc;
use std::test::Fail;
use std::thread;
use value_trees::Snap;

#[test]
fn parts_cross_threads(rt: HostRuntime) -> Result<(), Fail> {
    let program: Option<Arc<Unfolded>> = None;
    let (program, ()) = thread::join(&rt, move || program, || ());
    assert!(rt; program.is_none());
    let snap: Option<Arc<Snap>> = None;
    let (snap, ()) = thread::join(&rt, move || snap, || ());
    assert!(rt; snap.is_none());
    let fired: Option<Arc<Fired>> = None;
    let (fired, ()) = thread::join(&rt, move || fired, || ());
    assert!(rt; fired.is_none());
    let core: Option<Arc<Core>> = None;
    let (core, ()) = thread::join(&rt, move || core, || ());
    assert!(rt; core.is_none());
    let room: Option<Arc<Room>> = None;
    let (room, ()) = thread::join(&rt, move || room, || ());
    assert!(rt; room.is_none());
    Ok(())
}

#[test]
fn books_cross_threads(rt: HostRuntime) -> Result<(), Fail> {
    let book: Option<Arc<Book>> = None;
    let (book, ()) = thread::join(&rt, move || book, || ());
    assert!(rt; book.is_none());
    Ok(())
}
