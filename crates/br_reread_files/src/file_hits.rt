//! The hits of a file, and its front: what was made of the first of them when they were found.
ghost use Rattle.std.specs.Prelude.{◌≡◌, [], drop, take, IfOk, IfSome};
ghost use Rattle.std.specs.Option.{option_copied};
ghost use Rattle.br_join.specs.Front.{IsFrontOf};
ghost use Rattle.br_join.specs.Plain.{plain_bytes};
ghost use Rattle.br_records.specs.Records.{fragments};
ghost use Rattle.br_reread_files.specs.FileHits.{count_of, digested, unread};

use crate::digesting::Digesting;
use crate::rereading::push_hit;
use br_data::Reading;
use br_join::Front;
use br_match::Hit;
use std::alloc::{AllocError, Global};
use std::marker::Model;

/// The hits of a file in order of place, and its front, if it has one.
#[derive(Drop)]
pub(crate) struct FileHits<'h> {
    hits: &'h [Hit],
    front: Option<&'h Front>,
}

impl<'h> Model for FileHits<'h> {
    ghost use Rattle.std.specs.Prelude.{IfSome};
    ghost use Rattle.std.specs.Option.{option_copied};
    ghost use Rattle.br_join.specs.Front.{IsFrontOf};
    ghost use Rattle.br_reread_files.specs.FileHits as model;

    ghost Value = { model.FileHits };

    ghost view = { λ f. record { hits = f.hits.now; done = model.count_of (option_copied f.front) } };

    ghost invariant = { λ f. IfSome (option_copied f.front) (λ front. IsFrontOf front f.hits.now) };
}

/// Returns the same hit. Data in memory are shared, and none are copied.
fn shared(hit: &Hit) -> Result<Hit, AllocError>
    ensures { IfOk result (λ shared. shared ≡ hit.now) }
{
    Ok(Hit {
        key: hit.key,
        spot: hit.spot,
        stream: hit.stream,
        size: hit.size,
        data: hit.data.share()?,
    })
}

/// Returns the same hits.
fn all_shared(alloc: Global, hits: &[Hit]) -> Result<Vec<Hit>, AllocError>
    ensures { IfOk result (λ all. all.items ≡ hits.now) }
{
    let mut all = Vec::with_capacity(alloc, hits.len())?;
    for hit in hits {
        let one = shared(hit)?;
        push_hit(&mut all, one)?;
    }
    Ok(all)
}

/// Returns the hits of which the front is made.
fn first_of<'h>(front: &Front, hits: &'h [Hit]) -> &'h [Hit]
    requires { IsFrontOf front.now hits.now }
    ensures { result.now ≡ take front.now.count hits.now }
{
    let (first, _) = hits.split_at(front.count());
    first
}

/// Returns the hits after those of which the front is made.
fn rest_of<'h>(front: &Front, hits: &'h [Hit]) -> &'h [Hit]
    requires { IsFrontOf front.now hits.now }
    ensures { result.now ≡ drop front.now.count hits.now }
{
    let (_, rest) = hits.split_at(front.count());
    rest
}

/// Returns the hits of which the front is made, and their digested data.
///
/// # Errors
///
/// `AllocError` if memory runs out.
fn begun_with(alloc: Global, front: &Front, hits: &[Hit]) -> Result<Digesting, AllocError>
    requires { IsFrontOf front.now hits.now }
    ensures hits { IfOk result (λ begun. begun.hits.items ≡ take front.now.count hits.now) }
    ensures digested { IfOk result (λ begun. begun.reading ≡ plain_bytes (fragments begun.hits.items)) }
{
    let first = all_shared(alloc, first_of(front, hits))?;
    let reading = front.reading()?;
    Ok(Digesting {
        reading,
        hits: first,
        window: Vec::new(alloc),
    })
}

/// Returns no hits of a file.
fn begun_without(alloc: Global) -> Digesting
    ensures hits { result.hits.items ≡ [] }
    ensures digested { result.reading ≡ [] }
{
    Digesting {
        reading: Reading::new(),
        hits: Vec::new(alloc),
        window: Vec::new(alloc),
    }
}

impl<'h> FileHits<'h> {
    /// Returns hits with the front that is made of the first of them, if there is one.
    pub(crate) fn new(hits: &'h [Hit], front: Option<&'h Front>) -> FileHits<'h>
        requires { IfSome (option_copied front) (λ f. IsFrontOf f hits.now) }
        ensures { result ≡ record { hits = hits.now; done = count_of (option_copied front.entry) } }
    {
        FileHits { hits, front }
    }

    /// Returns all hits.
    pub(crate) fn all(&self) -> &'h [Hit]
        ensures { result.now ≡ self.now.hits }
    {
        self.hits
    }

    /// Returns the hits after those that are digested.
    pub(crate) fn unread(&self) -> &'h [Hit]
        ensures { result.now ≡ unread self.now }
    {
        match self.front {
            Some(front) => rest_of(front, self.hits),
            None => self.hits,
        }
    }

    /// Returns the hits that are digested, and their digested data.
    ///
    /// # Errors
    ///
    /// `AllocError` if memory runs out.
    pub(crate) fn begin(&self, alloc: Global) -> Result<Digesting, AllocError>
        ensures hits { IfOk result (λ begun. begun.hits.items ≡ digested self.now) }
        ensures digested { IfOk result (λ begun. begun.reading ≡ plain_bytes (fragments begun.hits.items)) }
    {
        match self.front {
            Some(front) => begun_with(alloc, front, self.hits),
            None => Ok(begun_without(alloc)),
        }
    }
}
