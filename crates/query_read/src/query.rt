//! The pairs of a query.

ghost use Rattle.std.specs.Prelude.{◌≡◌, ◌<◌, ◌++◌, [], length, slice_get, option_copied, Some, IfOk, OnOk};
ghost use Rattle.query_read.specs.Query.{pairs_of, pairs_of_piece, values_of};

use crate::cut::{cut, split_once};
use percent_encoding::percent_decode;
use std::alloc::{AllocError, Global};
use std::marker::Model;

/// The pairs of a query, names and values decoded. Contracts see them in order.
///
/// All names and values stand in one buffer, so that a query takes two blocks of memory at most:
/// one for the buffer and one for the places in it.
#[derive(Debug, Drop)]
pub struct Query {
    bytes: Vec<u8>,
    spans: Vec<PairSpan>,
}

/// Where a pair stands: its name from `from` up to and without `middle`, its value from there up to
/// and without `to`.
#[derive(Clone, Copy, Debug, PartialEq, Eq)]
struct PairSpan {
    from: usize,
    middle: usize,
    to: usize,
}

impl Model for Query {
    ghost use Rattle.std.specs.Prelude.{List, ℕ};

    ghost Value = { List (List ℕ × List ℕ) };

    ghost use Rattle.query_read.specs.Spans.{pairs_in, IsQuery};

    ghost view = { pairs_in };

    ghost invariant = { IsQuery };
}

impl Query {
    /// Reads a query: it is cut at each `&`, and an empty piece is skipped. The name of a piece is
    /// what stands before its first `=`, the value what follows, or nothing where no `=` stands.
    /// Both are percent-decoded; an escape that isn't one stays as it is, and so does `+`.
    pub fn read(alloc: Global, query: &[u8]) -> Result<Query, AllocError>
        ensures { IfOk result (λ pairs. pairs ≡ pairs_of query.now) }
    {
        let pieces = query.iter().filter(|b| **b == b'&').count() + 1;
        let mut pairs = Query {
            bytes: Vec::with_capacity(alloc, query.len())?,
            spans: Vec::with_capacity(alloc, pieces)?,
        };
        let mut left = query;
        'pieces: while let Some((piece, rest)) = split_once(left, b'&') {
            pairs.add(piece)?;
            left = rest;
        }
        pairs.add(left)?;
        Ok(pairs)
    }

    /// The value of the first pair of a name.
    pub fn first(&self, name: &[u8]) -> Option<&[u8]>
        ensures { option_copied result ≡ slice_get (values_of self.now name.now) 0 }
    {
        find_value(&self.bytes, &self.spans, name, 0)
    }

    /// How many pairs have a name.
    pub fn count(&self, name: &[u8]) -> usize
        ensures { result ≡ length (values_of self.now name.now) }
    {
        count_values(&self.bytes, &self.spans, name)
    }

    /// The value of the pair at a place, from 0, among those of a name.
    pub fn nth(&self, name: &[u8], i: usize) -> &[u8]
        requires { i < length (values_of self.now name.now) }
        ensures { slice_get (values_of self.now name.now) i ≡ Some result.now }
    {
        match find_value(&self.bytes, &self.spans, name, i) {
            Some(value) => value,
            None => unreachable!(),
        }
    }

    /// Adds the pair of a piece, if it isn't empty.
    fn add(&mut self, piece: &[u8]) -> Result<(), AllocError>
        ensures { OnOk result (self.new ≡ self.old ++ pairs_of_piece piece.now) }
    {
        if piece.is_empty() {
            return Ok(());
        }
        let (name, value) = cut(piece, b'=');
        let from = self.bytes.len();
        percent_decode(name).append_to(&mut self.bytes)?;
        let middle = self.bytes.len();
        percent_decode(value).append_to(&mut self.bytes)?;
        let to = self.bytes.len();
        self.spans.push(PairSpan { from, middle, to })?;
        Ok(())
    }
}

ghost use Rattle.query_read.specs.Spans.{pairs_at, AreSpans};

/// The value at a place among those of a name.
fn find_value<'a>(bytes: &'a [u8], spans: &[PairSpan], name: &[u8], i: usize) -> Option<&'a [u8]>
    requires { AreSpans bytes.now spans.now }
    ensures { option_copied result
        ≡ slice_get (values_of (pairs_at bytes.now spans.now) name.now) i }
{
    let mut skip = i;
    for span in spans {
        if &bytes[span.from..span.middle] == name {
            if skip == 0 {
                return Some(&bytes[span.middle..span.to]);
            }
            skip -= 1;
        }
    }
    None
}

/// How many pairs have a name.
fn count_values(bytes: &[u8], spans: &[PairSpan], name: &[u8]) -> usize
    requires { AreSpans bytes.now spans.now }
    ensures { result ≡ length (values_of (pairs_at bytes.now spans.now) name.now) }
{
    let mut count = 0;
    for span in spans {
        if &bytes[span.from..span.middle] == name {
            count += 1;
        }
    }
    count
}
