//! What is read of what a session wrote.

ghost use Rattle.std.specs.Prelude.{◌≡◌, ◌≤◌, List, length};
ghost use Rattle.edb_event.specs.Ranges.{IsJournal};
ghost use Rattle.edb_event.specs.declared.entry.Entry.{Entry};
ghost use Rattle.edb_journal.specs.Accepted.{Reads, most_bytes};
ghost use Rattle.edb_journal.specs.Wide.{AreWide};
ghost use Rattle.edb_session.specs.Texts.{journal_form, text_in};

/// What `edb --journal` writes of a journal is read as that journal: its entries are in range, as those of each `Journal`
/// are; its numbers and names are such as the types of code hold; and the text is no longer than any that is read.
pub fn written_journals_are_read()
    ensures { (journal : List Entry) → IsJournal journal → AreWide journal → length (text_in journal_form journal) ≤ most_bytes → Reads (text_in journal_form journal) journal }
{}
