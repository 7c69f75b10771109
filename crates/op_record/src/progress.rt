//! How far a record has come.
ghost use Rattle.std.specs.Prelude.{◌↔◌, IsTrue};
ghost use Rattle.word_fields.specs.declared.records.RecordWord.{RecordWord};
ghost use Rattle.op_record.specs.Progress.{IsEarlier};

use word_fields::RecordWord;

/// Whether `a` comes before `b`, by the call's number, then by the round, then by the phase.
pub fn earlier(a: RecordWord, b: RecordWord) -> bool
    ensures order { IsTrue result ↔ IsEarlier a b }
    ensures irreflexive { ¬ IsEarlier a a }
    ensures transitive { (c : RecordWord) → IsEarlier a b → IsEarlier b c → IsEarlier a c }
{
    if a.number != b.number {
        a.number < b.number
    } else if a.round != b.round {
        a.round < b.round
    } else {
        a.phase.number() < b.phase.number()
    }
}
