//! Readers of single words and numbers.
ghost use Rattle.vc_reader.specs.Reading.{read_list, read_number};
ghost use Rattle.vc_reader.specs.Network.{read_kind, read_way, read_link, read_header, read_limit, portal_word};

use crate::fault::{Stop, Why};
use crate::reader::{ItemReader, Reader, list, number, text, wrong};
use serde_json::Value;
use sqlite_items::Items;
use std::alloc::Global;
use vc_process::ValueKind;

/// The reader of each item of a list, whatever stood before it.
#[derive(Drop)]
pub(crate) struct Each<R>(pub R);

impl<R: Reader> ItemReader for Each<R> {
    type Out = R::Out;

    ghost meaning = { λ r _. R.meaning r.0 };

    fn read(&self, alloc: Global, _before: &[R::Out], value: &Value) -> Result<R::Out, Stop> {
        self.0.read(alloc, value)
    }
}

/// The reader of a list, by the reader of its items.
#[derive(Drop)]
pub(crate) struct ListOf<R>(pub R);

impl<R: ItemReader> Reader for ListOf<R> {
    type Out = Items<R::Out>;

    ghost meaning = { λ r. read_list (R.meaning r.0) };

    fn read(&self, alloc: Global, value: &Value) -> Result<Items<R::Out>, Stop> {
        list(alloc, &self.0, value)
    }
}

/// The kind of a channel or a variable.
#[derive(Drop)]
pub(crate) struct Kind;

impl Reader for Kind {
    type Out = ValueKind;

    ghost meaning = { λ _. read_kind };

    fn read(&self, alloc: Global, value: &Value) -> Result<ValueKind, Stop> {
        match text(alloc, value)? {
            "int" => Ok(ValueKind::Int),
            "bytes" => Ok(ValueKind::Bytes),
            _ => Err(wrong(alloc, Why::Kind)),
        }
    }
}

/// Whether a way is from end a.
#[derive(Drop)]
pub(crate) struct FromA;

impl Reader for FromA {
    type Out = bool;

    ghost meaning = { λ _. read_way };

    fn read(&self, alloc: Global, value: &Value) -> Result<bool, Stop> {
        match text(alloc, value)? {
            "ab" => Ok(true),
            "ba" => Ok(false),
            _ => Err(wrong(alloc, Why::Kind)),
        }
    }
}

/// The word of a portal.
#[derive(Drop)]
pub(crate) struct PortalWord;

impl Reader for PortalWord {
    type Out = ();

    ghost meaning = { λ _. portal_word };

    fn read(&self, alloc: Global, value: &Value) -> Result<(), Stop> {
        if text(alloc, value)? == "portal" {
            Ok(())
        } else {
            Err(wrong(alloc, Why::Kind))
        }
    }
}

/// A link, 0 to 31.
#[derive(Drop)]
pub(crate) struct Link;

impl Reader for Link {
    type Out = u8;

    ghost meaning = { λ _. read_link };

    fn read(&self, alloc: Global, value: &Value) -> Result<u8, Stop> {
        Ok(number(alloc, 0, 31, value)? as u8)
    }
}

/// A header, 0 to 65,535.
#[derive(Drop)]
pub(crate) struct Header;

impl Reader for Header {
    type Out = u16;

    ghost meaning = { λ _. read_header };

    fn read(&self, alloc: Global, value: &Value) -> Result<u16, Stop> {
        Ok(number(alloc, 0, 65535, value)? as u16)
    }
}

/// The least header of an interval, 0 to 65,535.
#[derive(Drop)]
pub(crate) struct Lower;

impl Reader for Lower {
    type Out = u32;

    ghost meaning = { λ _. read_header };

    fn read(&self, alloc: Global, value: &Value) -> Result<u32, Stop> {
        Ok(number(alloc, 0, 65535, value)? as u32)
    }
}

/// The limit of an interval, 0 to 65,536.
#[derive(Drop)]
pub(crate) struct Limit;

impl Reader for Limit {
    type Out = u32;

    ghost meaning = { λ _. read_limit };

    fn read(&self, alloc: Global, value: &Value) -> Result<u32, Stop> {
        Ok(number(alloc, 0, 65536, value)? as u32)
    }
}

/// A byte.
#[derive(Drop)]
pub(crate) struct Byte;

impl Reader for Byte {
    type Out = u8;

    ghost meaning = { λ _. read_number 0 255 };

    fn read(&self, alloc: Global, value: &Value) -> Result<u8, Stop> {
        Ok(number(alloc, 0, 255, value)? as u8)
    }
}

/// The length of a message, 0 to 65,535.
#[derive(Drop)]
pub(crate) struct MessageLen;

impl Reader for MessageLen {
    type Out = u32;

    ghost meaning = { λ _. read_number 0 65535 };

    fn read(&self, alloc: Global, value: &Value) -> Result<u32, Stop> {
        Ok(number(alloc, 0, 65535, value)? as u32)
    }
}
