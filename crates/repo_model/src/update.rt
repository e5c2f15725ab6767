/// How often a proxy asks its remote for a document again: each time, after 3,600 or 86,400 seconds, once, or never.
#[derive(Clone, Copy, Debug, PartialEq, Eq)]
pub enum Update {
    Always,
    Hourly,
    Daily,
    Once,
    Never,
}
