// A survey of meter layouts: definitions and laws. No function stands here.
#![tactic(auto)]

// The most streams of a plant that is surveyed.
pub const MAX_SURVEYED: usize = 12;

// How many counts there are: for no meter, one, and so on.
pub const SURVEY_SIZE: usize = MAX_SURVEYED + 1;

// What a survey finds: how many streams there are, and for each k from 0 to that number how many choices of k metered streams leave
// none withheld, 0 past it.
#[derive(Clone, Copy)]
pub struct Layouts {
    pub count: u8,
    pub counts: [u16; SURVEY_SIZE],
}
