//! Refuses the allocations of each call in turn.
//!
//! Each call is made with its first allocation refused, then with its second, and on, each time on
//! what is made anew, until none of its allocations is refused. A call whose allocation is refused
//! reports out of memory and leaves what it was made on as it was; made again, now with memory, it
//! does what it does where nothing is refused. Where the call can do without the allocation, as
//! without a larger cache, it answers as ever. How many allocations of each call were refused is
//! printed. A trial fails at a call that does anything else, and at one of which no allocation was
//! refused.
//!
//! Allocations are refused from outside (`hand`). Where nobody does it, as in a stored run, each
//! call is made once. `trials` has the one loop that tries calls, `same` says what is compared, and
//! `refusal` which faults report out of memory.
#![tactic(auto)]

mod hand;
mod refusal;
mod same;
mod trials;

pub use hand::Hand;
pub use refusal::{Refusal, answered, both};
pub use same::{Equal, Lent, Same, Spent};
pub use trials::Trials;
