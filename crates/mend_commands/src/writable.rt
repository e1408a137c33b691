//! What holds of each file that is in memory: it can be written, and its text reads back.

ghost use Rattle.entry_references.specs.Refs.{Record as AnyRecord};
ghost use Rattle.iges_fields.specs.InLine.{is_value};
ghost use Rattle.iges_write.specs.Writable.{IsHeld, IsWritable};
ghost use Rattle.std.specs.List.{list_all};
ghost use Rattle.std.specs.Prelude.{◌≡◌, ◌<◌, IsTrue, Some, length, slice_get};

use iges_directory::Entry;
use iges_params::File;

fn recall_eight(bytes: &[u8; 8])
    ensures { length bytes.now ≡ 8 }
{
    let _bytes = *bytes;
}

fn recall_fields(entry: &Entry)
    ensures status { length entry.now.status ≡ 8 }
    ensures label { length entry.now.label ≡ 8 }
{
    recall_eight(&entry.status);
    recall_eight(&entry.label);
}

fn recall_values(file: &File, i: usize)
    requires { i < length file.now.entries }
    ensures { (r : AnyRecord) → slice_get file.now.entries i ≡ Some r
        → IsTrue (list_all is_value r.1) }
{
    let _count = file.entry_count();
    match file.values(file.entry_no(i)) {
        Some(values) => {
            let _len = values.len();
        }
        None => {}
    }
}

fn recall_entry(file: &File, i: usize)
    requires { i < length file.now.entries }
    ensures { (r : AnyRecord) → slice_get file.now.entries i ≡ Some r → IsHeld r }
{
    recall_values(file, i);
    recall_fields(file.entry_at(i).unwrap());
}

/// Does nothing. It is for proofs: its clause says that the file can be written, and that its text reads back.
pub fn recall_writable(file: &File)
    ensures { IsWritable file.now }
{
    let _count = file.start_count();
    let _len = file.global().values.len();
    let _param = file.global().delims.param();
    'entries: for i in 0..file.entry_count() {
        recall_entry(file, i);
    }
}
