//! One safe replacement of a file's text, and files that are no standard stream.
//!
//! `replace` is proved over a `Store`, a file and those beside it: whatever fails, and wherever it is stopped, the file has the
//! text that it had or the new one, whole. `Disk` is the system's files, `Memory` files for tests. No file that is opened for a
//! write has the number of a standard stream: `open_apart` is proved to give none, and a program begins with `hold_streams`.
//!
//! No call of the toolchain reads or writes access lists and other attributes. So the new text gets its name in a file that its
//! owner alone may read and write, whatever lists there are. The file that had the name before is kept under a second one, gets
//! the new text too, and takes its place again: it has all lists and attributes that it had. Who has that file open from before
//! sees it change.
//!
//! No contract can say what a real file holds, so clauses speak of the events that a store notes, and `disk.rt` is short and read by
//! people. `Record::new` and `Record::note` are proved by hand: they make and change a ghost value of no bytes.
//!
//! ```
//! match open(rt, path) {
//!     Ok(mut opened) => append_to(rt, path, &mut opened, line),
//!     Err(why) => report_refusal(rt, path, &why),
//! }
//! // ..
//! match replace(rt.alloc(), disk, old, &new) {
//!     Ok(saved) => {
//!         say(rt, path, saved, disk.rescue());
//!         DONE
//!     }
//! ```
//!
//! Lines of `org_measure/src/append.rt`. Tests: `org_tests/src/saves.rt`, `tests/saves.sh` on a real disk.
#![tactic(auto)]

mod access;
mod apart;
mod disk;
mod editors;
mod finish;
mod memory;
mod name;
mod new_file;
mod place;
mod record;
mod replacement;
mod saved;
mod store;
mod unsaved;

pub use access::Access;
pub use apart::{HeldStreams, hold_streams, open_apart};
pub use disk::{Disk, Paths};
pub use memory::Memory;
pub use name::Name;
pub use new_file::make_file;
pub use place::{Opened, Unfit, open};
pub use record::Record;
pub use replacement::replace;
pub use saved::{Meanwhile, Saved};
pub use store::Store;
pub use unsaved::{Cause, Step, Unsaved, Why};
