//! What a proxy is told.
use path_patterns::Patterns;
use repo_model::Update;
use texts::Text;

/// The rule of a proxy: its id; the host and the port of its remote, and the prefix of all paths there; how often it asks for a
/// document again; for how many seconds, at most 86,400, what the remote lacked counts as missing; and the patterns of which one
/// must match a path, and of which none may.
#[derive(Drop)]
pub struct Rule {
    pub id: Text,
    pub host: Text,
    pub port: u16,
    pub prefix: Text,
    pub update: Update,
    pub negative_seconds: u64,
    pub allow: Patterns,
    pub block: Patterns,
}
