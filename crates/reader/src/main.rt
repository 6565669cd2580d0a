//! Reads a token file and prints its listing, or its tree, or the one line of a refusal.
#![tactic(auto)]

ghost use Rattle.std.specs.Prelude.{◌≤◌, length, IfOk};

use crate::failure::Failure;
use crate::list::{MAX_BYTES, RECORDS, list};
use crate::tree::tree;
use sinks::listing::Listing;
use sinks::table::NodeTable;
use sinks::table::entry::Entry;
use std::fs::File;
use std::io::{Read, Write};
use std::process::ExitCode;
use std::{env, io};

mod failure;
mod kind_names;
mod list;
#[cfg(test)]
mod tests;
mod tree;

/// How many bytes a listing has at most.
const LISTING: usize = 65536;

/// As many bytes as there are, up to the end of the buffer.
fn read_up_to<R: Read>(source: &mut R, buffer: &mut [u8]) -> io::Result<usize>
    ensures { IfOk result (λ n. n ≤ length buffer.old) }
{
    // By hand: no method of `Read` fills a slice as far as the input goes, without memory of its own.
    let mut len = 0;
    while len < buffer.len() {
        let n = source.read(&mut buffer[len..])?;
        if n == 0 {
            break;
        }
        len += n;
    }
    Ok(len)
}

/// What is printed of a file.
#[derive(Drop)]
enum Form {
    Listing,
    Tree,
}

/// The words after the program's name.
#[derive(Drop)]
struct Arguments {
    form: Form,
    /// the file, or standard input where there is none
    path: Option<String>,
}

fn read_arguments(rt: &HostRuntime) -> io::Result<Arguments> {
    let mut words = env::args(rt)?;
    let (form, path) = match words.nth(1) {
        Some(word) if word.as_str() == "--tree" => (Form::Tree, words.next()),
        path => (Form::Listing, path),
    };
    Ok(Arguments { form, path })
}

fn read_input(rt: &HostRuntime, path: Option<String>, buffer: &mut [u8]) -> io::Result<usize>
    ensures { IfOk result (λ n. n ≤ length buffer.old) }
{
    match path {
        Some(path) => read_up_to(&mut File::open(rt, path.as_str())?, buffer),
        None => read_up_to(&mut rt.stdin(), buffer),
    }
}

fn print_listing(rt: &HostRuntime, file: &[u8]) -> Result<(), Failure> {
    let mut buffer = [0; LISTING];
    let mut listing = Listing::new(&mut buffer);
    list(file, &mut listing)?;
    rt.stdout().write_all(listing.bytes())?;
    Ok(())
}

fn print_tree(rt: &HostRuntime, file: &[u8]) -> Result<(), Failure> {
    let mut memory = vec![in rt.alloc(); Entry::NONE; RECORDS]?;
    let mut table = NodeTable::new(memory.as_mut_slice());
    list(file, &mut table)?;
    rt.print(tree(rt.alloc(), table.entries())?)?;
    Ok(())
}

fn run(rt: &HostRuntime) -> Result<(), Failure> {
    let Arguments { form, path } = read_arguments(rt).map_err(Failure::Unread)?;
    // One byte more than the longest file tells that a file is too long.
    let mut bytes = [0; MAX_BYTES + 1];
    let len = read_input(rt, path, &mut bytes).map_err(Failure::Unread)?;
    match form {
        Form::Listing => print_listing(rt, &bytes[..len]),
        Form::Tree => print_tree(rt, &bytes[..len]),
    }
}

fn main(rt: HostRuntime) -> anyhow::Result<ExitCode> {
    match run(&rt) {
        Ok(()) => return Ok(ExitCode::SUCCESS),
        Err(Failure::Refused(refusal)) => println!(rt; "{refusal}")?,
        Err(Failure::Unread(error)) => eprintln!(rt; "reader: {error}")?,
        Err(Failure::Unprinted(error)) => return Err(error),
    }
    Ok(ExitCode::FAILURE)
}
