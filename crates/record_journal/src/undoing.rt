ghost use Rattle.std.specs.Prelude.{◌≡◌, None, OnOk, OnErr, IsOk};
ghost use Rattle.outside.specs.Faults.{HasCause};
ghost use Rattle.record_disk.specs.Disk.{content, Told};
ghost use Rattle.record_journal.specs.Journal.{acknowledged, tables_of, IsReady, IsSteady, KeepsTables};
ghost use Rattle.row_tables.specs.Loading.{loading};

use outside::Failed;
use record_disk::Disk;
use record_log::Log;

/// Takes the frame that failed, if there is one, off the file.
pub fn take_back<D: Disk>(log: &mut Log<D>) -> Result<(), Failed>
    requires { IsSteady log.old }
    ensures cause { HasCause log.old.faults log.new.faults result }
    ensures crash { Told log.old.trace log.new.trace (KeepsTables (tables_of log.old) log.old.pending log.new.pending) }
    ensures steady { IsSteady log.new }
    ensures ready { IsReady log.old → IsReady log.new }
    ensures same { tables_of log.new ≡ tables_of log.old }
    ensures reads { Told log.old.trace log.new.trace (λ s t. loading (acknowledged log.new.gate log.new.pending (content t)) ≡ loading (acknowledged log.old.gate log.old.pending (content s))) }
    ensures ok { OnOk result (log.new.pending ≡ None) }
    ensures err { OnErr result (log.new.pending ≡ log.old.pending) }
    ensures none { log.old.pending ≡ None → IsOk result × (log.new ≡ log.old) }
    ensures stays { log.new.gate ≡ log.old.gate }
{
    log.undo()
}
