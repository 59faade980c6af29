// Cases, and how they are read.
use anyhow::{Context, Result, bail, ensure};
use qm_store::MetaEntry;
use std::alloc::{AllocError, Global};

/// Where a store's last item may end.
pub const END: u64 = 1 << 62;

/// A run of the program, with the ports that it is given.
#[derive(Drop)]
pub struct Case {
    pub name: String,
    pub words: Vec<String>,
    pub input: Vec<u8>,
    pub source_fails: Vec<u64>,
    pub sink_fails: Vec<u64>,
    pub store: StoreOf,
    pub is_list: bool,
    pub tells_items: bool,
}

/// Which store a case has.
#[derive(Drop)]
pub enum StoreOf {
    /// The one that the case before gave back.
    Kept,
    New(NewStore),
}

/// A store of its own.
#[derive(Drop)]
pub struct NewStore {
    pub start: u64,
    pub head: Vec<u8>,
    pub items: Vec<Vec<u8>>,
    pub metadata: Vec<(String, Vec<MetaEntry>)>,
    pub fails: Vec<u64>,
}

/// The cases of a text.
pub fn parse(alloc: Global, text: &str) -> Result<Vec<Case>> {
    let mut cases = Vec::new(alloc);
    for (at, line) in text.lines().enumerate() {
        parse_line(alloc, &mut cases, line).context(format_args!("line {}", at + 1))?;
    }
    Ok(cases)
}

fn parse_line(alloc: Global, cases: &mut Vec<Case>, line: &str) -> Result<()> {
    if line.is_empty() || line.starts_with('#') {
        return Ok(());
    }
    let (first, rest) = line.split_once(' ').unwrap_or((line, ""));
    match first {
        "case" => cases.push(Case::new(alloc, rest)?)?,
        "again" => {
            let before = cases.iter().rev().find(|case| !case.is_kept());
            let case = before.context("no case before")?.again(alloc, rest)?;
            cases.push(case)?;
        }
        _ => {
            let case = cases.last_mut().context("no case has begun")?;
            case.parse_part(alloc, first, rest)?;
        }
    }
    Ok(())
}

impl NewStore {
    fn new(alloc: Global) -> NewStore {
        NewStore {
            start: 0,
            head: Vec::new(alloc),
            items: Vec::new(alloc),
            metadata: Vec::new(alloc),
            fails: Vec::new(alloc),
        }
    }

    // Goes on with an entry of the metadata of the last name.
    fn push_entry(&mut self, alloc: Global, rest: &str) -> Result<()> {
        let (key, value) = rest.split_once(' ').unwrap_or((rest, ""));
        let (_, entries) = self.metadata.last_mut().context("no name")?;
        entries.push(MetaEntry {
            key: nine_bytes(&hex::decode(alloc, key)?)?,
            value: hex::decode(alloc, value)?,
        })?;
        Ok(())
    }
}

fn nine_bytes(bytes: &[u8]) -> Result<[u8; 9]> {
    let mut nine = [0; 9];
    ensure!(bytes.len() == nine.len(), "a key of {} bytes", bytes.len());
    nine.copy_from_slice(bytes);
    Ok(nine)
}

impl Case {
    fn new(alloc: Global, name: &str) -> Result<Case, AllocError> {
        Ok(Case {
            name: String::from_str(alloc, name)?,
            words: words(alloc, "run any unordered mmr")?,
            input: Vec::new(alloc),
            source_fails: Vec::new(alloc),
            sink_fails: Vec::new(alloc),
            store: StoreOf::New(NewStore::new(alloc)),
            is_list: false,
            tells_items: false,
        })
    }

    // Whether its store is the one that the case before gave back.
    fn is_kept(&self) -> bool {
        matches!(self.store, StoreOf::Kept)
    }

    // A case with these words and this input.
    fn again(&self, alloc: Global, name: &str) -> Result<Case, AllocError> {
        let mut case = Case::new(alloc, name)?;
        case.words = self.words.clone()?;
        case.input = self.input.clone()?;
        Ok(case)
    }

    // Takes in a line that begins with this word.
    fn parse_part(&mut self, alloc: Global, first: &str, rest: &str) -> Result<()> {
        match first {
            "words" => self.words = words(alloc, rest)?,
            "|" => {
                self.input.extend_from_slice(rest.as_bytes())?;
                self.input.push(b'\n')?;
            }
            "hex" => self.input.extend_from_slice(&hex::decode(alloc, rest)?)?,
            "fill" => self.fill(alloc, rest)?,
            "start" => self.new_store()?.start = start(rest)?,
            "head" => self.new_store()?.head = hex::decode(alloc, rest)?,
            "item" => self.new_store()?.items.push(hex::decode(alloc, rest)?)?,
            "meta" => {
                let name = String::from_str(alloc, rest)?;
                self.new_store()?.metadata.push((name, Vec::new(alloc)))?;
            }
            "entry" => self.new_store()?.push_entry(alloc, rest)?,
            "fail" => self.fail(rest)?,
            "keep" => self.store = StoreOf::Kept,
            "list" => self.is_list = true,
            "items" => self.tells_items = true,
            _ => bail!("unknown: {first}"),
        }
        Ok(())
    }

    // Goes on with bytes, so many times.
    fn fill(&mut self, alloc: Global, rest: &str) -> Result<()> {
        let (count, bytes) = rest.split_once(' ').context("no bytes")?;
        let bytes = hex::decode(alloc, bytes)?;
        for _ in 0..count.parse::<u32>()? {
            self.input.extend_from_slice(&bytes)?;
        }
        Ok(())
    }

    // Has calls of a port fail.
    fn fail(&mut self, rest: &str) -> Result<()> {
        let (port, numbers) = rest.split_once(' ').context("no numbers")?;
        let fails = self.fails_of(port)?;
        for number in numbers.split(' ') {
            fails.push(number.parse()?)?;
        }
        Ok(())
    }

    fn new_store(&mut self) -> Result<&mut NewStore> {
        match &mut self.store {
            StoreOf::New(store) => Ok(store),
            StoreOf::Kept => bail!("the store is kept"),
        }
    }

    // The numbers of the calls of a port that fail.
    fn fails_of(&mut self, port: &str) -> Result<&mut Vec<u64>> {
        match port {
            "source" => Ok(&mut self.source_fails),
            "sink" => Ok(&mut self.sink_fails),
            "store" => Ok(&mut self.new_store()?.fails),
            _ => bail!("no port: {port}"),
        }
    }
}

// Where a store starts.
fn start(text: &str) -> Result<u64> {
    let start = text.parse()?;
    ensure!(start <= END, "a store that starts at {start}");
    Ok(start)
}

fn words(alloc: Global, text: &str) -> Result<Vec<String>, AllocError> {
    text.split_whitespace()
        .map(|word| String::from_str(alloc, word))
        .try_collect(alloc)
}
