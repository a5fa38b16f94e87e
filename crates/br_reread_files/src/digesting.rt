//! Files whose data are read and digested one window after another, and not kept. While another
//! thread digests the data of one window, those of the next one are read.
ghost use Rattle.std.specs.Prelude.{◌≡◌, ◌≤◌, ◌-◌, ◌++◌, length, map, nat_abs, Err, IfOk, OnOk};
ghost use Rattle.std.specs.List.{AllByRecursion};
ghost use Rattle.br_data.specs.declared.reread_fault.AgainFault.TheVariants.{Changed, Failed};
ghost use Rattle.br_model.specs.Meaning as meaning;
ghost use Rattle.br_model.specs.Restored as model;
ghost use Rattle.br_reread_parts.specs.Given.{GivesHit, GivesHits};
ghost use Rattle.br_join.specs.Outcome.{shown};
ghost use Rattle.br_join.specs.Plain.{plain_bytes, plain_of};
ghost use Rattle.br_records.specs.Records.{fragments};
ghost use Rattle.br_data.specs.ManyDrives.{GoOn, HaveFailed};
ghost use Rattle.br_reread_files.specs.Digesting.{AreRead, IsDigested, IsRead, IsWhole, ReadsOn};
ghost use Rattle.br_reread_files.specs.FileHits.{digested, unread};
ghost use Rattle.br_reread_parts.specs.Windows.{AppendsPlain, data_bytes};

use crate::file_hits::FileHits;
use crate::putting::has_sparse_data;
use crate::rereading::{outcome_by, push_hit};
use br_data::{AgainFault, Data, OverMany, Reading, standing_stays};
use br_join::{Outcome, outcome_with};
use br_match::Hit;
use br_records::DATA;
use br_reread_parts::{DIGESTED, cut_window, digest_window, push_data};
use br_types::FileKey;
use br_volume::Drive;
use std::alloc::{AllocError, Global};
use std::thread::{Threads, join_mut};

/// If data of this stream are plain, moves them out of the hit and appends them to a window.
///
/// # Errors
///
/// `AllocError` if memory runs out.
fn keep_plain(window: &mut Vec<Data>, stream: i32, mut found: Data) -> Result<Data, AllocError>
    ensures same { IfOk result (λ left. left.bytes ≡ found.bytes) }
    ensures kept { OnOk result (data_bytes window.new.items ≡ data_bytes window.old.items ++ plain_of (nat_abs stream) found.bytes) }
{
    if stream.unsigned_abs() != DATA {
        return Ok(found);
    }
    push_data(window, found.share()?)?;
    found.let_go();
    Ok(found)
}

/// Reads the data of the hit. Plain data are moved to a window; other data stay in memory.
///
/// # Errors
///
/// Those of `many`, and `Memory` if memory runs out.
fn read_next<D: Drive>(
    alloc: Global,
    many: &mut OverMany<'_, D>,
    hit: &Hit,
    window: &mut Vec<Data>,
) -> Result<Hit, AgainFault>
    ensures key { IfOk result (λ read. read.key ≡ hit.now.key) }
    ensures same { IfOk result (λ read. GivesHit many.old hit.now → read ≡ hit.now) }
    ensures kept { IfOk result (λ read. AppendsPlain window.old.items window.new.items read.fragment) }
    ensures on { GoOn many.old many.new }
    ensures changed { result ≡ Err Changed → GivesHit many.old hit.now → ⊥ }
    ensures failed { result ≡ Err Failed → HaveFailed many.old many.new }
{
    let read = many.read(alloc, hit.spot, &hit.data)?;
    let data = keep_plain(window, hit.stream, read)?;
    Ok(Hit {
        key: hit.key,
        spot: hit.spot,
        stream: hit.stream,
        size: hit.size,
        data,
    })
}

/// Hits that were read, and their plain data in memory. The hits no longer hold these.
#[derive(Drop)]
pub(crate) struct Ahead {
    pub(crate) hits: Vec<Hit>,
    pub(crate) window: Vec<Data>,
}

/// Reads the data of the hits of a window, one after another.
///
/// # Errors
///
/// Those of `many`, and `Memory` if memory runs out.
#[tactic(auto, using(br_data::proofs::GoOnLaws::go_itself, br_data::proofs::GoOnLaws::go_more, br_data::proofs::GoOnLaws::failed_on))]
pub(crate) fn read_ahead<D: Drive>(
    alloc: Global,
    many: &mut OverMany<'_, D>,
    hits: &[Hit],
) -> Result<Ahead, AgainFault>
    ensures read { IfOk result (AreRead many.old hits.now) }
    ensures on { GoOn many.old many.new }
    ensures changed { result ≡ Err Changed → GivesHits many.old hits.now → ⊥ }
    ensures failed { result ≡ Err Failed → HaveFailed many.old many.new }
{
    standing_stays();
    let mut read = Vec::with_capacity(alloc, hits.len())?;
    let mut window = Vec::with_capacity(alloc, hits.len())?;
    for hit in hits {
        let one = read_next(alloc, many, hit, &mut window)?;
        push_hit(&mut read, one)?;
    }
    Ok(Ahead { hits: read, window })
}

/// The digested plain data of a file, the hits that were read, and the plain data of the last of
/// them, which are digested next.
#[derive(Drop)]
pub(crate) struct Digesting {
    pub(crate) reading: Reading,
    pub(crate) hits: Vec<Hit>,
    pub(crate) window: Vec<Data>,
}

/// Takes hits that were read, after the data of those before them were digested.
///
/// # Errors
///
/// `AllocError` if memory runs out.
pub(crate) fn take_ahead(begun: &mut Digesting, ahead: Ahead) -> Result<(), AllocError>
    requires digested { begun.old.reading ≡ plain_bytes (fragments begun.old.hits.items) }
    requires window { data_bytes ahead.window.items ≡ plain_bytes (fragments ahead.hits.items) }
    ensures read { OnOk result (IsRead begun.new) }
    ensures hits { OnOk result (begun.new.hits.items ≡ begun.old.hits.items ++ ahead.hits.items) }
{
    let Ahead { mut hits, window } = ahead;
    begun.hits.append(&mut hits)?;
    begun.window = window;
    Ok(())
}

/// A file whose first window is read, and the hits after it.
#[derive(Drop)]
pub(crate) struct Opened<'h> {
    pub(crate) begun: Digesting,
    pub(crate) rest: &'h [Hit],
}

/// Begins a file with what is digested of it, and reads the first window of the others of its hits.
///
/// # Errors
///
/// Those of `many`, and `Memory` if memory runs out.
pub(crate) fn open<'h, D: Drive>(
    alloc: Global,
    many: &mut OverMany<'_, D>,
    file: &FileHits<'h>,
) -> Result<Opened<'h>, AgainFault>
    ensures read { IfOk result (λ opened. ReadsOn many.old (digested file.now) (unread file.now) opened.begun opened.rest.now) }
    ensures on { GoOn many.old many.new }
    ensures changed { result ≡ Err Changed → GivesHits many.old (unread file.now) → ⊥ }
    ensures failed { result ≡ Err Failed → HaveFailed many.old many.new }
{
    let first = cut_window(file.unread(), DIGESTED);
    let ahead = read_ahead(alloc, many, first.window)?;
    let mut begun = file.begin(alloc)?;
    take_ahead(&mut begun, ahead)?;
    Ok(Opened {
        begun,
        rest: first.rest,
    })
}

/// Reads the hits of the next window, while another thread digests the data of this one.
///
/// # Errors
///
/// Those of `many`, and `Memory` if memory runs out.
fn digest_beside<D: Drive>(
    rt: &impl Threads,
    alloc: Global,
    many: &mut OverMany<'_, D>,
    begun: &mut Digesting,
    next: &[Hit],
) -> Result<Ahead, AgainFault>
    ensures digested { OnOk result (begun.new.reading ≡ begun.old.reading ++ data_bytes begun.old.window.items) }
    ensures hits { begun.new.hits.items ≡ begun.old.hits.items }
    ensures read { IfOk result (AreRead many.old next.now) }
    ensures on { GoOn many.old many.new }
    ensures changed { result ≡ Err Changed → GivesHits many.old next.now → ⊥ }
    ensures failed { result ≡ Err Failed → HaveFailed many.old many.new }
{
    let reading = &mut begun.reading;
    let window = begun.window.as_slice();
    let (digested, ahead) = join_mut(
        rt,
        &mut || digest_window(reading, window),
        &mut || read_ahead(alloc, many, next),
    );
    digested?;
    ahead
}

/// Reads the next window of a file, while another thread digests the data of this one.
///
/// # Errors
///
/// Those of `many`, and `Memory` if memory runs out.
fn read_on<'h, D: Drive>(
    rt: &impl Threads,
    alloc: Global,
    many: &mut OverMany<'_, D>,
    begun: &mut Digesting,
    rest: &'h [Hit],
) -> Result<&'h [Hit], AgainFault>
    requires { IsRead begun.old }
    ensures read { IfOk result (λ left. ReadsOn many.old begun.old.hits.items rest.now begun.new left.now) }
    ensures fewer { IfOk result (λ left. length left.now ≤ length rest.now - 1) }
    ensures on { GoOn many.old many.new }
    ensures changed { result ≡ Err Changed → GivesHits many.old rest.now → ⊥ }
    ensures failed { result ≡ Err Failed → HaveFailed many.old many.new }
{
    let next = cut_window(rest, DIGESTED);
    let ahead = digest_beside(rt, alloc, many, begun, next.window)?;
    take_ahead(begun, ahead)?;
    Ok(next.rest)
}

/// Reads and digests the rest of a file, a window of hits at a time. Plain data are digested and
/// let go, and other data stay in memory. This thread digests those of the last window (in a small
/// file it is the only one), and another thread digests the others.
///
/// # Errors
///
/// Those of `many`, and `Memory` if memory runs out.
#[tactic(auto, using(br_data::proofs::GoOnLaws::go_itself, br_data::proofs::GoOnLaws::go_more, br_data::proofs::GoOnLaws::failed_on))]
pub(crate) fn digest_rest<D: Drive>(
    rt: &impl Threads,
    alloc: Global,
    many: &mut OverMany<'_, D>,
    begun: &mut Digesting,
    rest: &[Hit],
) -> Result<(), AgainFault>
    requires { IsRead begun.old }
    ensures digested { OnOk result (IsDigested many.old begun.old.hits.items rest.now begun.new) }
    ensures on { GoOn many.old many.new }
    ensures changed { result ≡ Err Changed → GivesHits many.old rest.now → ⊥ }
    ensures failed { result ≡ Err Failed → HaveFailed many.old many.new }
{
    standing_stays();
    let mut left = rest;
    while !left.is_empty() {
        left = read_on(rt, alloc, many, begun, left)?;
    }
    digest_window(&mut begun.reading, &begun.window)?;
    Ok(())
}

/// Returns the outcome of a digested file.
///
/// # Errors
///
/// `AllocError` if memory runs out.
pub(crate) fn finish(alloc: Global, key: FileKey, read: Digesting) -> Result<Outcome, AllocError>
    requires { IsWhole key read }
    ensures { IfOk result (λ outcome. shown outcome ≡ model.outcome_of key (fragments read.hits.items)) }
{
    let bytes = read.reading.finish(alloc);
    outcome_with(alloc, key, &read.hits, bytes)
}

/// Returns the outcome of a file without sparse data. What is digested already is not read again.
/// At most two windows of data are in memory, and the bytes of the file are not.
///
/// # Errors
///
/// Those of `many`, and `Memory` if memory runs out.
#[tactic(auto, using(br_data::proofs::GoOnLaws::go_itself, br_data::proofs::GoOnLaws::go_more, br_data::proofs::GoOnLaws::failed_on))]
fn plain_outcome_by<D: Drive>(
    rt: &impl Threads,
    alloc: Global,
    many: &mut OverMany<'_, D>,
    key: FileKey,
    file: &FileHits<'_>,
) -> Result<Outcome, AgainFault>
    requires { AllByRecursion (λ (h : meaning.Hit). h.key ≡ key) file.now.hits }
    ensures made { IfOk result (λ outcome. GivesHits many.old (unread file.now) → shown outcome ≡ model.outcome_of key (fragments file.now.hits)) }
    ensures on { GoOn many.old many.new }
    ensures changed { result ≡ Err Changed → GivesHits many.old (unread file.now) → ⊥ }
    ensures failed { result ≡ Err Failed → HaveFailed many.old many.new }
{
    standing_stays();
    let mut opened = open(alloc, many, file)?;
    let rest = opened.rest;
    digest_rest(rt, alloc, many, &mut opened.begun, rest)?;
    let outcome = finish(alloc, key, opened.begun)?;
    Ok(outcome)
}

/// Returns the outcome with the bytes of its file let go.
fn without_bytes(outcome: Outcome) -> Outcome
    ensures { shown result ≡ shown outcome }
{
    match outcome {
        Outcome::File(mut item) => {
            item.bytes.let_go();
            Outcome::File(item)
        }
        fault => fault,
    }
}

/// Returns the outcome of a file from its fragments, given in order of place; data that were let go
/// are read again, those of its front only if some data are sparse. The bytes of the file are not
/// kept in memory. While they are read, at most two windows of them are in memory, or all of them if
/// some are sparse.
///
/// # Errors
///
/// Those of `many`, and `Memory` if memory runs out.
pub(crate) fn digested_by<D: Drive>(
    rt: &impl Threads,
    alloc: Global,
    many: &mut OverMany<'_, D>,
    key: FileKey,
    file: &FileHits<'_>,
) -> Result<Outcome, AgainFault>
    requires { AllByRecursion (λ (h : meaning.Hit). h.key ≡ key) file.now.hits }
    ensures made { IfOk result (λ outcome. GivesHits many.old file.now.hits → shown outcome ≡ model.outcome_of key (fragments file.now.hits)) }
    ensures on { GoOn many.old many.new }
    ensures changed { result ≡ Err Changed → GivesHits many.old file.now.hits → ⊥ }
    ensures failed { result ≡ Err Failed → HaveFailed many.old many.new }
{
    if !has_sparse_data(file.all()) {
        return plain_outcome_by(rt, alloc, many, key, file);
    }
    let outcome = outcome_by(alloc, many, key, file.all())?;
    Ok(without_bytes(outcome))
}
