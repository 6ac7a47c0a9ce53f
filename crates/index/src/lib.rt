// The landing index: every public call, under the one name that a Rattle program uses. Each call takes any words and any numbers, and its
// promise stands above its body in the crate that it comes from. It answers what was asked, or why it is refused; the function beside it gives
// the paper's number and values of the reply.
//
//   call_format  makes the store of the empty set
//   call_put     puts a pair into the store, or drops one from it
//   call_ask     asks whether the store holds a pair
//   call_why     asks the same, and tells where the walk went
//   call_check   tests a whole store, and lists the pairs that it holds
#![tactic(auto)]

pub use call_ask::{Found, Refusal, Reply, ask, ask_reply};
pub use call_check::{Listed, check, check_reply, list, list_reply};
pub use call_format::{Unopened, format, format_reply};
pub use call_put::{Changed, Done, EditRefusal, drop, edit_reply, put};
pub use call_why::why;
