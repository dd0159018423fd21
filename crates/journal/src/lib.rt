// The journal: how a configuration lies on the blocks of a device, what is written and read there, and the laws that every loss
// of power keeps. They are laws on lists of blocks, so they hold of every device. No code of the engine is here.
//
// Words: the *header* is block 0, the *records* are blocks 1 to 25, the *home blocks* 26 to 50. The header names home blocks, its
// targets, whose new bytes lie in the records. An *idle* store has nothing journalled.
#![tactic(auto)]

ghost use Rattle.journal.specs.Laws.{HeaderReads, HeaderAlone, HomesDecide, RestoresOnce, IdleRestores, FormatFinishes, CommitRecovers, CommitDecides, CommitFinishes, CommitWrites, RepairRecovers, RepairFinishes, RestartsKeep, PlansWithin};

// law: a header has 32 bytes and reads back as its targets, and no other bytes do.
pub fn headers() -> u8
    ensures reads { HeaderReads }
    ensures alone { HeaderAlone }
{
    0
}

// law: two configurations do not have the same home blocks; blocks restore to one thing only, an idle store to its configuration.
pub fn homes() -> u8
    ensures decides { HomesDecide }
    ensures once { RestoresOnce }
    ensures idle { IdleRestores }
{
    0
}

// law: a commit that is cut off anywhere restores to the old configuration or to the new, by whether the header was written; one
// that is carried out leaves an idle store of the new; nothing is written exactly where nothing changes.
pub fn commits() -> u8
    ensures recovers { CommitRecovers }
    ensures decides { CommitDecides }
    ensures finishes { CommitFinishes }
    ensures nothing { CommitWrites }
{
    0
}

// law: a format that is carried out leaves an idle store of its configuration.
pub fn formats() -> u8
    ensures { FormatFinishes }
{
    0
}

// law: a restart that is cut off anywhere leaves what it found to the next one, however often; one that is carried out leaves an
// idle store of it.
pub fn restarts() -> u8
    ensures recovers { RepairRecovers }
    ensures finishes { RepairFinishes }
    ensures any { RestartsKeep }
{
    0
}

// law: every access of a format, a commit or a restart is of one of the first 51 blocks.
pub fn plans() -> u8
    ensures { PlansWithin }
{
    0
}
