// What comes in, and what has to be answered.

/// Two hosted repositories, a proxy and a group.
pub const SETTINGS: &str = "grace_seconds = 60
[[hosted]]
id = \"releases\"
releases = true
snapshots = false
[[hosted]]
id = \"snapshots\"
releases = false
snapshots = true
keep_count = 1
keep_days = 0
[[proxy]]
id = \"central\"
host = \"repo.test\"
port = 8080
prefix = \"/m2\"
update = \"daily\"
negative_seconds = 300
[[group]]
id = \"public\"
members = [\"releases\", \"snapshots\", \"central\"]
";

/// A connection with a PUT and a GET of one file.
pub const INPUT: &str =
    "PUT /repository/releases/org/acme/lib/1.0/lib-1.0.jar HTTP/1.1\r\nHost: x\r\nContent-Length: 3\r\n\r\nabcGET /repository/releases/org/acme/lib/1.0/lib-1.0.jar HTTP/1.1\r\nHost: x\r\nConnection: close\r\n\r\n";

// Four connections, each with a PUT and a GET of a file of its own.
pub const INPUT_1: &str =
    "PUT /repository/releases/org/acme/lib/1.1/lib-1.1.jar HTTP/1.1\r\nHost: x\r\nContent-Length: 3\r\n\r\nabcGET /repository/releases/org/acme/lib/1.1/lib-1.1.jar HTTP/1.1\r\nHost: x\r\nConnection: close\r\n\r\n";

pub const INPUT_2: &str =
    "PUT /repository/releases/org/acme/lib/1.2/lib-1.2.jar HTTP/1.1\r\nHost: x\r\nContent-Length: 3\r\n\r\nabcGET /repository/releases/org/acme/lib/1.2/lib-1.2.jar HTTP/1.1\r\nHost: x\r\nConnection: close\r\n\r\n";

pub const INPUT_3: &str =
    "PUT /repository/releases/org/acme/lib/1.3/lib-1.3.jar HTTP/1.1\r\nHost: x\r\nContent-Length: 3\r\n\r\nabcGET /repository/releases/org/acme/lib/1.3/lib-1.3.jar HTTP/1.1\r\nHost: x\r\nConnection: close\r\n\r\n";

pub const INPUT_4: &str =
    "PUT /repository/releases/org/acme/lib/1.4/lib-1.4.jar HTTP/1.1\r\nHost: x\r\nContent-Length: 3\r\n\r\nabcGET /repository/releases/org/acme/lib/1.4/lib-1.4.jar HTTP/1.1\r\nHost: x\r\nConnection: close\r\n\r\n";

/// The file is taken, and given.
pub const OUTPUT: &str =
    "HTTP/1.1 201 Created\r\nContent-Type: text/plain\r\nContent-Length: 8\r\n\r\ncreated\nHTTP/1.1 200 OK\r\nContent-Type: application/octet-stream\r\nContent-Length: 3\r\nX-Checksum-SHA1: a9993e364706816aba3e25717850c26c9cd0d89d\r\nX-Checksum-MD5: 900150983cd24fb0d6963f7d28e17f72\r\nConnection: close\r\n\r\nabc";

/// The file is taken, and can't be read.
pub const UNREAD: &str =
    "HTTP/1.1 201 Created\r\nContent-Type: text/plain\r\nContent-Length: 8\r\n\r\ncreated\nHTTP/1.1 503 Service Unavailable\r\nContent-Type: text/plain\r\nContent-Length: 11\r\nConnection: close\r\n\r\nblob-fault\n";
