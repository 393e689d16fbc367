//! The lines of a transcript, in the order in which a run writes them: what each of them says, and
//! the writers of all of them. It reads nothing, and knows neither logs nor runs.
#![tactic(auto)]

mod deed;
mod end_word;
mod lines;
mod offers;
mod version;

pub use deed::{put_by, put_deed, put_expected_listing, put_step, put_step_lines};
pub use end_word::EndWord;
pub use lines::{put_end, put_have, put_mid, put_stage, put_start};
pub use offers::{put_offer_line, put_offers};
pub use version::Version;
