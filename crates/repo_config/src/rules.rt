//! What the settings say of hosted repositories, of proxies and of groups.
ghost use Rattle.std.specs.Prelude.{◌≡◌};

use path_patterns::Patterns;
use repo_model::Update;
use std::marker::Model;
use texts::Text;

/// A hosted repository.
#[derive(Drop)]
pub struct HostedRule {
    pub(crate) id: Text,
    pub(crate) releases: bool,
    pub(crate) snapshots: bool,
    pub(crate) keep_count: u64,
    pub(crate) keep_days: u64,
}

impl Model for HostedRule {
    ghost use Rattle.repo_model.specs.Settings.{Rule};

    ghost Value = { Rule };

    ghost view = { λ r. record {
      id = r.id;
      releases = r.releases;
      snapshots = r.snapshots;
      keep_count = r.keep_count;
      keep_days = r.keep_days;
    } };
}

impl HostedRule {
    /// Its id.
    pub fn id(&self) -> &str
        ensures { result.now ≡ self.now.id }
    {
        self.id.as_str()
    }

    /// Whether it takes releases.
    pub fn releases(&self) -> bool
        ensures { result ≡ self.now.releases }
    {
        self.releases
    }

    /// Whether it takes snapshots.
    pub fn snapshots(&self) -> bool
        ensures { result ≡ self.now.snapshots }
    {
        self.snapshots
    }

    /// How many of its newest builds a snapshot directory keeps, whatever their age.
    pub fn keep_count(&self) -> u64
        ensures { result ≡ self.now.keep_count }
    {
        self.keep_count
    }

    /// For how many days a snapshot directory keeps the others.
    pub fn keep_days(&self) -> u64
        ensures { result ≡ self.now.keep_days }
    {
        self.keep_days
    }
}

/// A proxy of a remote repository.
#[derive(Drop)]
pub struct ProxyRule {
    pub(crate) id: Text,
    pub(crate) host: Text,
    pub(crate) port: u16,
    pub(crate) prefix: Text,
    pub(crate) update: Update,
    pub(crate) negative_seconds: u64,
    pub(crate) allow: Patterns,
    pub(crate) block: Patterns,
}

impl Model for ProxyRule {
    ghost use Rattle.repo_model.specs.Settings.{ProxyRule as Rule};

    ghost Value = { Rule };

    ghost view = { λ r. record {
      id = r.id;
      host = r.host;
      port = r.port;
      prefix = r.prefix;
      update = r.update;
      negative_seconds = r.negative_seconds;
      allow = r.allow;
      block = r.block;
    } };
}

impl ProxyRule {
    /// Its id.
    pub fn id(&self) -> &str
        ensures { result.now ≡ self.now.id }
    {
        self.id.as_str()
    }

    /// The host of the remote.
    pub fn host(&self) -> &str
        ensures { result.now ≡ self.now.host }
    {
        self.host.as_str()
    }

    /// The port of the remote.
    pub fn port(&self) -> u16
        ensures { result ≡ self.now.port }
    {
        self.port
    }

    /// What stands before a path in a request to the remote: nothing, or `/..`.
    pub fn prefix(&self) -> &str
        ensures { result.now ≡ self.now.prefix }
    {
        self.prefix.as_str()
    }

    /// How often it asks for a document again.
    pub fn update(&self) -> Update
        ensures { result ≡ self.now.update }
    {
        self.update
    }

    /// For how many seconds a file that the remote lacks counts as missing.
    pub fn negative_seconds(&self) -> u64
        ensures { result ≡ self.now.negative_seconds }
    {
        self.negative_seconds
    }

    /// The patterns of which a path has to match one.
    pub fn allow(&self) -> &Patterns
        ensures { result.now ≡ self.now.allow }
    {
        &self.allow
    }

    /// The patterns of which a path may match none.
    pub fn block(&self) -> &Patterns
        ensures { result.now ≡ self.now.block }
    {
        &self.block
    }
}

/// A group of hosted repositories and proxies.
#[derive(Drop)]
pub struct GroupRule {
    pub(crate) id: Text,
    pub(crate) members: Vec<Text>,
}

impl Model for GroupRule {
    ghost use Rattle.repo_model.specs.Settings.{GroupRule as Rule};

    ghost Value = { Rule };

    ghost view = { λ r. record { id = r.id; members = r.members.items } };
}

impl GroupRule {
    /// Its id.
    pub fn id(&self) -> &str
        ensures { result.now ≡ self.now.id }
    {
        self.id.as_str()
    }

    /// The ids of its members, in their order.
    pub fn members(&self) -> &[Text]
        ensures { result.now ≡ self.now.members }
    {
        self.members.as_slice()
    }
}
