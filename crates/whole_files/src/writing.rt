//! Writes bytes to a sink of the outside, in as many pieces as it takes them.
ghost use Rattle.std.specs.Prelude.{◌≡◌, ℕ, OnOk, OnErr};
ghost use Rattle.std.specs.Io.KnownBytes.{Appends};
ghost use Rattle.whole_files.specs.Outside.{Rose, AppendsPrefix};

use crate::outside::{Failed, Sink};

/// Writes the bytes. After a fault the first of them were written, maybe none, and no other.
pub fn write_all<K: Sink>(out: &mut K, bytes: &[u8]) -> Result<(), Failed>
    ensures whole { OnOk result (Appends (K.written out.old) (K.written out.new) bytes.now) }
    ensures calm { OnOk result (K.faults out.new ≡ K.faults out.old) }
    ensures prefix { OnErr result (AppendsPrefix (K.written out.old) (K.written out.new) bytes.now) }
    ensures fault { OnErr result (Rose (K.faults out.old) (K.faults out.new)) }
{
    let mut at = 0;
    while at < bytes.len() {
        at += out.put(&bytes[at..])?;
    }
    Ok(())
}
