//! Names as a line takes them: each at the end of 16 bytes, which are copied in one piece.
ghost use Rattle.std.specs.Prelude.{string_bytes, map, IfOk};
ghost use Rattle.std.specs.List.{AllZip};
ghost use Rattle.scenario.specs.Labels.{IsLabelOf};

use base::Memory;
use std::alloc::Global;

/// The labels of names, in their order.
pub(crate) fn labels_of(alloc: Global, names: &[String]) -> Result<Vec<[u8; 16]>, Memory>
    ensures { IfOk result (λ labels. AllZip IsLabelOf (map string_bytes names.now) labels.items) }
{
    let mut labels = Vec::new(alloc);
    for name in names {
        labels.push(label_of(name.as_bytes()))?;
    }
    Ok(labels)
}

/// A name at the end of 16 bytes, the first of which is its length; of a name of more than 15 bytes only zeros.
fn label_of(name: &[u8]) -> [u8; 16]
    ensures { IsLabelOf name.now result }
{
    let mut label = [0; 16];
    let length = name.len();
    if length <= 15 {
        label[16 - length..].copy_from_slice(name);
        label[0] = length as u8;
    }
    label
}
