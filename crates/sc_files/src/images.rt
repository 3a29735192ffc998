ghost use Rattle.std.specs.Prelude.{◌≡◌, [], IfOk, IfSome};
ghost use Rattle.sc_files.specs.States.{IsFresh, IsDurable};
ghost use Rattle.sc_files.specs.Memory.{memory_state};
ghost use Rattle.sc_files.specs.Steps.{LeadsTo};

use crate::mem_calls::write_over;
use crate::mem_file::{Call, MemFile};
use sc_record::List;
use std::alloc::{AllocError, Global};

// What a crash may leave after some calls. `is_kept` tells that a sync that is done now may keep it.
#[derive(Drop)]
struct Image {
    bytes: List<u8>,
    is_kept: bool,
}

impl MemFile {
    /// Opens the file again after a crash now. Of its calls since it was opened the first `reached` are on the disk as far as they were
    /// done, and no byte of those after them. It is none where this can't be: a sync that was done says that more is there. An error means
    /// out of memory.
    pub fn reopened(
        &self,
        alloc: Global,
        reached: usize,
        fails: List<u64>,
    ) -> Result<Option<MemFile>, AllocError>
        ensures image { IfOk result (λ found. IfSome found (λ file. (memory_state self.now).may_leave file.bytes)) }
        ensures fails { IfOk result (λ found. IfSome found (λ file. file.fails ≡ fails)) }
        ensures history { IfOk result (λ found. IfSome found (λ file. file.history ≡ [])) }
        ensures calls { IfOk result (λ found. IfSome found (λ file. file.calls ≡ 0)) }
        ensures faults { IfOk result (λ found. IfSome found (λ file. file.faults ≡ 0)) }
        ensures fresh { IfOk result (λ found. IfSome found (λ file. IsFresh (memory_state file))) }
        ensures durable { IfOk result (λ found. IfSome found (λ file. IsDurable (memory_state file))) }
    {
        match self.image(alloc, reached)? {
            None => Ok(None),
            Some(bytes) => {
                let file = MemFile::new(alloc, bytes, fails)?;
                Ok(Some(file))
            }
        }
    }

    // The bytes that it is opened again with.
    fn image(&self, alloc: Global, reached: usize) -> Result<Option<List<u8>>, AllocError>
        ensures { IfOk result (λ found. IfSome found (λ bytes. (memory_state self.now).may_leave bytes)) }
    {
        let mut image = Image {
            bytes: List::from_vec(self.first.as_slice().to_vec(alloc)?),
            is_kept: true,
        };
        let calls = self.history.as_slice();
        let mut at = 0;
        'calls: while at < calls.len() {
            match after_call(alloc, image, &calls[at], at < reached)? {
                None => return Ok(None),
                Some(next) => image = next,
            }
            at += 1;
        }
        let Image { bytes, .. } = image;
        Ok(Some(bytes))
    }
}

// The image after one call more, which is on the disk as far as it was done, or not at all. It is none at a sync that was done and doesn't
// keep the image.
fn after_call(
    alloc: Global,
    image: Image,
    call: &Call,
    is_there: bool,
) -> Result<Option<Image>, AllocError>
    ensures { IfOk result (λ found. IfSome found (λ next. LeadsTo call.now image.bytes image.is_kept next.bytes next.is_kept)) }
{
    let Image {
        bytes: old,
        is_kept,
    } = image;
    match call {
        Call::Write { at, bytes, done } => {
            if !*done {
                return Ok(Some(Image {
                    bytes: old,
                    is_kept,
                }));
            }
            if !is_there {
                return Ok(Some(Image {
                    bytes: old,
                    is_kept: false,
                }));
            }
            if *at > old.len() {
                return Ok(Some(Image {
                    bytes: old,
                    is_kept: false,
                }));
            }
            let new = write_over(alloc, old.as_slice(), *at, bytes.as_slice())?;
            Ok(Some(Image {
                bytes: new,
                is_kept,
            }))
        }
        Call::Cut { len, done } => {
            if !*done {
                return Ok(Some(Image {
                    bytes: old,
                    is_kept,
                }));
            }
            if !is_there {
                return Ok(Some(Image {
                    bytes: old,
                    is_kept: false,
                }));
            }
            let mut new = old.into_vec();
            new.truncate(*len);
            Ok(Some(Image {
                bytes: List::from_vec(new),
                is_kept,
            }))
        }
        Call::Sync { done } => {
            if !*done {
                return Ok(Some(Image {
                    bytes: old,
                    is_kept: true,
                }));
            }
            if !is_kept {
                return Ok(None);
            }
            Ok(Some(Image {
                bytes: old,
                is_kept: true,
            }))
        }
    }
}
