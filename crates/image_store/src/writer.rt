//! A writer of a new image, block by block.

ghost use Rattle.std.specs.Prelude.{◌≡◌, ℕ, ◌↔◌, ◌+◌, ◌*◌, ◌<◌, ◌≤◌, List, [], length, take, replicate, get_or, true, false, min, Some, None, IsTrue, IsErrOf, IfOk, IfErr, OnOk, OnErr, Ok, Err};
ghost use Rattle.std.specs.declared.option.Option.{Option};
ghost use Rattle.agent_link.specs.Counts.{Counted};
ghost use Rattle.sha2.specs.Sha256.{sha256};
ghost use Rattle.stream_blocks.specs.Sets.{count, first, HasNone};
ghost use Rattle.image_store.specs.Banks.{size_of, is_testing, fresh_of, after_create, created};
ghost use Rattle.image_store.specs.Images.{blocks_in, len_of, image};
ghost use Rattle.image_store.specs.Standing.{IsOf, put_behind};
ghost use Rattle.image_store.specs.Writing.{checked, IsWriting, after_put, Placed, missing_of, IsJudged, after_verdict};

use crate::answers::{Put, PutFault, Verdict};
use crate::bank::Bank;
use crate::digest::digest_of;
use agent_link::Fault;
use std::alloc::Global;
use std::marker::Model;
use stream_blocks::Missing;

/// Fills the new image of a bank with the blocks of one file, in any order. It keeps which blocks are
/// missing, and none of their bytes. Each call is to be handed the bank of `new`, and nobody else writes
/// its new image.
#[derive(Debug, Drop)]
pub struct Writer {
    file: u32,
    size: u32,
    block: u32,
    digest: [u8; 32],
    missing: Missing<1024>,
}

impl Model for Writer {
    ghost use Rattle.std.specs.Prelude.{◌≡◌, ◌<◌, ◌≤◌, length};
    ghost use Rattle.image_store.specs.Images.{blocks_in};
    ghost use Rattle.image_store.specs.Writing.{Progress};

    ghost Value = { Progress };

    ghost view = { λ w. record { file = w.file; size = w.size; block = w.block; digest = w.digest; missing = w.missing } };

    ghost invariant = { λ w. (w.size ≤ 16777216) × (256 ≤ w.block) × (length w.missing ≡ blocks_in w.size w.block) };
}

impl Writer {
    /// Creates the new image, of which all blocks are missing. The digest is the one of SHA-256
    /// (FIPS 180-4) that the image is to have.
    ///
    /// # Errors
    /// `Failed` where the bank failed; `NoMemory`. The bank is then as it was.
    pub fn new<B: Bank>(
        alloc: Global,
        bank: &mut B,
        file: u32,
        size: u32,
        block: u32,
        digest: [u8; 32],
    ) -> Result<Writer, Fault>
        requires size { (0 < size) × (size ≤ 16777216) }
        requires block { (256 ≤ block) × (block ≤ 65536) }
        ensures writer { IfOk result (λ w. w ≡ record { file = file; size = size; block = block; digest = «digest»; missing = replicate (blocks_in size block) true }) }
        ensures stands { IfOk result (λ w. IsOf [] w (B.contents bank.new)) }
        ensures shape { OnOk result (B.shape bank.new ≡ after_create (Ok tt) size (B.shape bank.old)) }
        ensures contents { OnOk result (B.contents bank.new ≡ created (Ok tt) size (B.contents bank.old)) }
        ensures same { OnErr result ((B.shape bank.new ≡ B.shape bank.old) × (B.contents bank.new ≡ B.contents bank.old)) }
        ensures cause { Counted (IsErrOf result Fault.Failed) (B.faults bank.old) (B.faults bank.new) }
    {
        let missing = Missing::new(alloc, size.div_ceil(block))?;
        bank.create(size)?;
        Ok(Writer {
            file,
            size,
            block,
            digest,
            missing,
        })
    }

    /// The least block that is missing.
    pub fn first_missing(&self) -> Option<u32>
        ensures { result ≡ first self.now.missing }
    {
        self.missing.first_missing()
    }

    /// Whether a block is missing. There are none from the image's last on.
    pub fn is_missing(&self, i: u32) -> bool
        ensures { result ≡ get_or self.now.missing i false }
    {
        self.missing.is_missing(i)
    }

    /// How many blocks are missing.
    pub fn missing(&self) -> u32
        ensures { result ≡ count self.now.missing }
    {
        self.missing.count()
    }

    /// Writes a block into its place in the bank. All blocks count as before but one that is `New`, which
    /// is there from then on. Of the blocks that were put a repeat is one too.
    ///
    /// # Errors
    /// `File`, `Index` and `Length`, in this order, where a field isn't the job's. `Bank` and `NoMemory`
    /// where the bank failed; the block's range may then hold anything.
    pub fn put<B: Bank>(
        &mut self,
        bank: &mut B,
        file: u64,
        index: u64,
        payload: &[u8],
    ) -> Result<Put, PutFault>
        requires made { size_of (B.shape bank.old) ≡ Some self.old.size }
        requires idle { is_testing (B.shape bank.old) ≡ true → HasNone self.old.missing }
        ensures refused { IfErr (checked self.old file index (length payload.now)) (λ fault. result ≡ Err fault) }
        ensures again { IfOk (checked self.old file index (length payload.now)) (λ i. get_or self.old.missing i false ≡ false → result ≡ Ok Put.Again) }
        ensures taken { IfOk (checked self.old file index (length payload.now)) (λ i. get_or self.old.missing i false ≡ true → IsWriting result) }
        ensures writer { self.new ≡ after_put result index self.old }
        ensures stands { (bs : List (ℕ × List ℕ)) → IsOf bs self.old (B.contents bank.old)
            → IsOf (put_behind bs result index payload.now) self.new (B.contents bank.new) }
        ensures shape { B.shape bank.new ≡ B.shape bank.old }
        ensures contents { Placed result (index * self.old.block) payload.now (B.contents bank.old) (B.contents bank.new) }
        ensures cause { Counted (IsErrOf result PutFault.Bank) (B.faults bank.old) (B.faults bank.new) }
    {
        let index = self.checked(file, index, payload.len())?;
        self.put_checked(bank, index, payload)
    }

    /// Writes a block of the job, unless it is there.
    fn put_checked<B: Bank>(
        &mut self,
        bank: &mut B,
        index: u32,
        payload: &[u8],
    ) -> Result<Put, PutFault>
        requires made { size_of (B.shape bank.old) ≡ Some self.old.size }
        requires idle { is_testing (B.shape bank.old) ≡ true → HasNone self.old.missing }
        requires low { index < blocks_in self.old.size self.old.block }
        requires whole { length payload.now ≡ len_of self.old.size self.old.block index }
        requires inside { index * self.old.block + length payload.now ≤ self.old.size }
        ensures again { get_or self.old.missing index false ≡ false → result ≡ Ok Put.Again }
        ensures taken { get_or self.old.missing index false ≡ true → IsWriting result }
        ensures writer { self.new ≡ after_put result index self.old }
        ensures stands { (bs : List (ℕ × List ℕ)) → IsOf bs self.old (B.contents bank.old)
            → IsOf (put_behind bs result index payload.now) self.new (B.contents bank.new) }
        ensures shape { B.shape bank.new ≡ B.shape bank.old }
        ensures contents { Placed result (index * self.old.block) payload.now (B.contents bank.old) (B.contents bank.new) }
        ensures cause { Counted (IsErrOf result PutFault.Bank) (B.faults bank.old) (B.faults bank.new) }
    {
        if !self.missing.is_missing(index) {
            return Ok(Put::Again);
        }
        bank.write_at(index * self.block, payload)?;
        self.missing.mark(index);
        Ok(Put::New)
    }

    /// Judges the new image by its digest. Where that is the wanted one, the image is Testing from then on.
    ///
    /// # Errors
    /// `Failed` where the bank failed; `NoMemory` from the bank.
    pub fn finish<B: Bank>(&mut self, bank: &mut B) -> Result<Verdict, Fault>
        requires made { size_of (B.shape bank.old) ≡ Some self.old.size }
        ensures missing { IfOk result (λ v. missing_of v ≡ first self.old.missing) }
        ensures judged { IfOk result (λ v. (bytes : List ℕ) → fresh_of (B.contents bank.old) ≡ Some bytes → IsJudged v self.old.digest (sha256 bytes)) }
        ensures wanted { IfOk result (λ v. (found : List ℕ) × IsJudged v self.old.digest found) }
        ensures whole { IfOk result (λ v. missing_of v ≡ None → (bs : List (ℕ × List ℕ)) (bytes : List ℕ)
            → IsOf bs self.old (B.contents bank.old) → fresh_of (B.contents bank.new) ≡ Some bytes
            → image bs self.old.size self.old.block ≡ Some bytes) }
        ensures writer { self.new ≡ self.old }
        ensures shape { B.shape bank.new ≡ after_verdict result (B.shape bank.old) }
        ensures contents { B.contents bank.new ≡ B.contents bank.old }
        ensures cause { Counted (IsErrOf result Fault.Failed) (B.faults bank.old) (B.faults bank.new) }
    {
        if let Some(first) = self.missing.first_missing() {
            return Ok(Verdict::Missing { first });
        }
        let found = digest_of(bank, self.size)?;
        if found.as_slice() != self.digest.as_slice() {
            return Ok(Verdict::Differs {
                wanted: self.digest,
                found,
            });
        }
        bank.activate()?;
        Ok(Verdict::Testing)
    }

    /// Whether the image that is Testing begins with these bytes. The bank stays as it is.
    ///
    /// # Errors
    /// `Failed` where the bank failed; `NoMemory` from the bank.
    pub fn test<B: Bank>(&mut self, bank: &mut B, magic: &[u8]) -> Result<bool, Fault>
        requires made { size_of (B.shape bank.old) ≡ Some self.old.size }
        requires testing { is_testing (B.shape bank.old) ≡ true }
        requires short { length magic.now ≤ 16 }
        ensures begins { IfOk result (λ answer. (bytes : List ℕ) → fresh_of (B.contents bank.old) ≡ Some bytes → IsTrue answer ↔ (take (length magic.now) bytes ≡ magic.now)) }
        ensures writer { self.new ≡ self.old }
        ensures shape { B.shape bank.new ≡ B.shape bank.old }
        ensures contents { B.contents bank.new ≡ B.contents bank.old }
        ensures cause { Counted (IsErrOf result Fault.Failed) (B.faults bank.old) (B.faults bank.new) }
    {
        if magic.len() > self.size as usize {
            return Ok(false);
        }
        let mut front = [0; 16];
        bank.read_at(0, &mut front[..magic.len()])?;
        Ok(is_same(&front[..magic.len()], magic))
    }

    /// The index of a block that is the job's.
    fn checked(&self, file: u64, index: u64, len: usize) -> Result<u32, PutFault>
        ensures value { result ≡ checked self.now file index len }
        ensures index { IfOk result (λ i. (i ≡ index) × (i < length self.now.missing)) }
        ensures whole { IfOk result (λ i. len ≡ len_of self.now.size self.now.block i) }
        ensures inside { IfOk result (λ i. i * self.now.block + len ≤ self.now.size) }
    {
        if file != self.file as u64 {
            return Err(PutFault::File { wanted: self.file });
        }
        let blocks = self.missing.blocks();
        if index >= blocks as u64 {
            return Err(PutFault::Index { blocks });
        }
        let index = index as u32;
        let wanted = self.block_len(index);
        if len != wanted as usize {
            return Err(PutFault::Length { wanted });
        }
        Ok(index)
    }

    /// How many bytes a block has.
    fn block_len(&self, i: u32) -> u32
        requires { i < length self.now.missing }
        ensures len { result ≡ len_of self.now.size self.now.block i }
        ensures inside { i * self.now.block + result ≤ self.now.size }
        ensures some { 0 < result }
    {
        self.block.min(self.size - i * self.block)
    }
}

fn is_same(left: &[u8], right: &[u8]) -> bool
    ensures { IsTrue result ↔ (left.now ≡ right.now) }
{
    left == right
}
