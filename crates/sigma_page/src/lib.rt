//! The program over bytes in memory, as a call that other languages make: words and input in, output, error output and
//! status out.
#![tactic(auto)]

mod memory_call;
mod page_call;
mod room_laws;
mod room_sink;
mod rooms;
mod word_list;

pub use page_call::sigma_page;
pub use room_laws::full_rooms_alone_fail;
pub use rooms::Lengths;
