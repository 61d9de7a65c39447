//! What every command of the program promises, and the functions that a command is made of.
//!
//! A command reads files, refuses or goes on, computes, stores files in order and says one line
//! (or several in one call). Its promise has three parts, all in `specs/`:
//!
//! - `Reading`: the host's calls in order up to the test that decides, and the status that it
//!   decides, as a function of the command's words and the world's files. It is a `Read`, which
//!   also gives a value: a `do` over `fetched_for`, `given`, `read_all` and, last,
//!   `written_under`; so the order of refusals is the order in which it is written down.
//! - `Choice`: which files may be stored and which line may be said, as a relation, since more
//!   than one may be right.
//! - `Promises` (and `Follows` below it): how the world stands after a run, whatever the host did,
//!   by cases on how it ended. `Ending` has four cases. A new status adds a line to `ending_of`, and
//!   changes no proof; statuses, faults and their lines stand in the crate `command_faults`.
//!
//! A command is written in this form:
//!
//! 1. Functions that read, each with the result `Result<T, Status>`. They call the host only
//!    through [`fetch_whole`] (or [`fetch_front`], where a longer file is refused in another way),
//!    and promise `Reads`: what they give is what the reading gives. Lemmas: `proofs/ReadOn` (a
//!    file that is fetched, a test, one reading after another) and `proofs/ReadLoop` (a loop).
//! 2. Functions that compute the files and the line. They see no host.
//! 3. [`write_out`], which stores the files and says the line.
//! 4. A function `come_..` that joins these, and promises `Reaches`. Lemmas: `first_ends`,
//!    `first_short`, `then_reaches`, `written` and, where nothing is stored or said, `unsaid` of
//!    `proofs/Promised`.
//! 5. The command's public function, which calls 4 and then [`finish`], which says the line of the
//!    status. It promises `Promises`, by the lemma `promised`; `answers` and `done_is` give what
//!    that says where the host did not fail, and at `Done`.
//!
//! What holds of a host that tells nothing, too, stands in one clause, `keeps`: no fault is taken back, a `Device` status
//! comes only where a fault rose, and never `Words` (`Keeps` of `specs/Steps`; `IsPlain` for functions that see no host).
#![tactic(auto)]

mod closing;
mod fetch;
mod whole;
mod write;

pub use closing::finish;
pub use fetch::{fetch_front, fetch_whole};
pub use whole::whole_in;
pub use write::write_out;
