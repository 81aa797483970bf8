//! One entry of the lists of methods.
ghost use Rattle.std.specs.Prelude.{◌≡◌, map, IfOk};
ghost use Rattle.gate_rpc.specs.Lists.{entry_of, words_of, is_among, is_separator};
ghost use Rattle.gate_rpc.specs.Listing.{listed_with};

use gate_bytes::{Copied, Kept, Memory, Text};
use std::alloc::{AllocError, Global};

/// What one `-rpcwhitelist` says: `user:words`, or a user alone.
#[derive(Drop)]
pub struct RpcEntry {
    pub user: Text,
    /// The words after the first colon, divided at commas and spaces; empty ones are kept.
    pub methods: Option<Kept<Kept<u8>>>,
}

impl RpcEntry {
    /// Reads an entry: each text is one.
    pub fn parse(alloc: Global, text: &str) -> Result<RpcEntry, Memory>
        ensures { IfOk result (λ entry. entry ≡ entry_of text.now) }
    {
        match text.split_once(':') {
            Some((user, words)) => Ok(RpcEntry {
                user: kept(alloc, user)?,
                methods: Some(words_in(alloc, words)?),
            }),
            None => Ok(RpcEntry {
                user: kept(alloc, text)?,
                methods: None,
            }),
        }
    }

    /// Whether a user's list has a method after this entry, given whether the list had it before, if there was a list.
    pub(crate) fn listed(&self, before: Option<bool>, user: &str, method: &str) -> Option<bool>
        ensures { result ≡ listed_with user.now method.now before self.now }
    {
        if self.user.as_str() != user {
            return before;
        }
        match (before, &self.methods) {
            (None, None) => Some(false),
            (None, Some(words)) => Some(has_word(words.as_slice(), method)),
            (Some(before), None) => Some(before),
            (Some(before), Some(words)) => Some(before && has_word(words.as_slice(), method)),
        }
    }
}

fn has_word(words: &[Kept<u8>], method: &str) -> bool
    ensures { result ≡ is_among method.now words.now }
{
    words
        .iter()
        .any(|word| word.as_slice() == method.as_bytes())
}

fn kept(alloc: Global, text: &str) -> Result<Text, Memory>
    ensures { IfOk result (λ copy. copy ≡ text.now) }
{
    Ok(Text::from_string(String::from_str(alloc, text)?))
}

/// The words of a text, divided at commas and spaces.
fn words_in(alloc: Global, text: &str) -> Result<Kept<Kept<u8>>, Memory>
    ensures { IfOk result (λ words. words ≡ words_of text.now) }
{
    let parts = parts_of(alloc, text)?;
    let mut words = Vec::with_capacity(alloc, parts.len())?;
    for part in parts.as_slice() {
        words.push(Kept::from_vec(Vec::from_slice(alloc, *part)?))?;
    }
    Ok(Kept::from_vec(words))
}

fn parts_of(alloc: Global, text: &str) -> Result<Vec<&[u8]>, AllocError>
    ensures { IfOk result (λ parts. map (λ part. part.now) parts.items ≡ words_of text.now) }
{
    text.as_bytes()
        .split(|byte| is_separator(*byte))
        .collect(alloc)
}

fn is_separator(byte: u8) -> bool
    ensures { result ≡ is_separator byte }
{
    byte == b',' || byte == b' '
}

impl Copied for RpcEntry {
    fn copy(&self, alloc: Global) -> Result<RpcEntry, Memory> {
        Ok(RpcEntry {
            user: self.user.copy(alloc)?,
            methods: self.methods.copy(alloc)?,
        })
    }
}
