ghost use Rattle.std.specs.Prelude.{◌≡◌, ◌↔◌, ℕ, IfOk, IfErr, IfSome, IfNone, IsTrue, IsErrOf, List, Option, is_some, true};
ghost use Rattle.app_peers.specs.declared.peer.Peer.{Peer};
ghost use Rattle.sidecar_words.specs.Value.{ArePeers, IsAppId, IsNumber, IsNumberIfAny, IsNumberOr, IsFilled, is_app_id_byte, text_of};
ghost use Rattle.sidecar_words.specs.Meaning.{IsMode};
ghost use Rattle.sidecar_words.specs.Found.{GivesValues};
ghost use Rattle.sidecar_words.specs.declared.given.WordsErr.TheVariants as errors;
ghost use Rattle.sidecar_words.specs.declared.given.Words.{Words};

use crate::drilling::drill_of;
use crate::{Mode, Words, WordsErr};
use app_peers::{PeerList, PeersErr, read_peers};
use side_base::{NoMemory, Text};
use std::alloc::Global;

const APP_ID_LIMIT: usize = 64;

const PORT_LIMIT: u16 = 65_535;

const WORKERS_LIMIT: u16 = 64;

const USUAL_PORT: u16 = 3_500;

const USUAL_WORKERS: u16 = 4;

/// The values of the options, and whether the flags stand.
#[derive(Clone, Copy)]
pub(crate) struct Values<'a> {
    pub(crate) app: Option<&'a str>,
    pub(crate) resources: Option<&'a str>,
    pub(crate) port: Option<&'a str>,
    pub(crate) app_port: Option<&'a str>,
    pub(crate) workers: Option<&'a str>,
    pub(crate) peers: Option<&'a str>,
    pub(crate) drill: Option<&'a str>,
    pub(crate) stdio: bool,
    pub(crate) check: bool,
}

/// What the values come to.
pub(crate) fn words_of(alloc: Global, values: &Values<'_>) -> Result<Words, WordsErr>
    ensures ok { IfOk result (GivesValues values.now) }
    ensures usage { IsErrOf result WordsErr.Usage → (given : Words) → ¬ GivesValues values.now given }
{
    let app = app_id(values.app).ok_or(WordsErr::Usage)?;
    let port = number_or(USUAL_PORT, values.port, PORT_LIMIT).ok_or(WordsErr::Usage)?;
    let app_port = app_port_of(values.app_port)?;
    let workers = number_or(USUAL_WORKERS, values.workers, WORKERS_LIMIT).ok_or(WordsErr::Usage)?;
    let mode = mode_of(values.stdio, values.check, values.drill).ok_or(WordsErr::Usage)?;
    if !fits(values.resources, mode) {
        return Err(WordsErr::Usage);
    }
    let peers = peers_of(alloc, app, values.peers)?;
    Ok(Words {
        app: Text::from_str(alloc, app)?,
        resources: copy(alloc, values.resources)?,
        port,
        app_port,
        workers: u32::from(workers),
        peers,
        mode,
    })
}

fn app_id(app: Option<&str>) -> Option<&str>
    ensures some { IfSome result (λ id. (text_of app.entry ≡ Some id.now) × IsAppId id.now) }
    ensures none { IfNone result ((id : List ℕ) → text_of app.entry ≡ Some id → ¬ IsAppId id) }
{
    match app {
        Some(id) if is_app_id(id.as_bytes()) => Some(id),
        _ => None,
    }
}

fn is_app_id(text: &[u8]) -> bool
    ensures { IsTrue result ↔ IsAppId text.now }
{
    !text.is_empty() && text.len() <= APP_ID_LIMIT && text.iter().all(|byte| is_app_id_byte(*byte))
}

fn is_app_id_byte(byte: u8) -> bool
    ensures { result ≡ is_app_id_byte byte }
{
    byte.is_ascii_alphanumeric() || byte == b'-' || byte == b'_'
}

/// What is to be done; `None` where more than one of the three is asked for, or a drill is not read.
fn mode_of(stdio: bool, check: bool, drill: Option<&str>) -> Option<Mode>
    ensures some { IfSome result (IsMode stdio check (text_of drill.entry)) }
    ensures none { IfNone result ((mode : Mode) → ¬ IsMode stdio check (text_of drill.entry) mode) }
{
    match (stdio, check, drill) {
        (false, false, None) => Some(Mode::Serve),
        (false, false, Some(text)) => drill_of(text),
        (false, true, None) => Some(Mode::Check),
        (true, false, None) => Some(Mode::Stdio),
        _ => None,
    }
}

/// Whether the folder isn't empty, and is there where the mode needs it.
fn fits(resources: Option<&str>, mode: Mode) -> bool
    ensures { IsTrue result ↔ (IsFilled (text_of resources.entry) × (mode ≡ Mode.Check → is_some resources.entry ≡ true)) }
{
    match resources {
        Some(folder) => !folder.is_empty(),
        None => !matches!(mode, Mode::Check),
    }
}

/// The number that a value writes, or the usual one where there is no value; `None` where it writes none up to `limit`.
fn number_or(usual: u16, value: Option<&str>, limit: u16) -> Option<u16>
    ensures some { IfSome result (IsNumberOr limit usual (text_of value.entry)) }
    ensures none { IfNone result ((number : ℕ) → ¬ IsNumberOr limit usual (text_of value.entry) number) }
{
    match value {
        Some(text) => number(text, limit),
        None => Some(usual),
    }
}

/// The port of the app that a value writes, and none where there is no value.
fn app_port_of(value: Option<&str>) -> Result<Option<u16>, WordsErr>
    ensures ok { IfOk result (IsNumberIfAny 65535 (text_of value.entry)) }
    ensures refused { IfErr result (λ error. (error ≡ errors.Usage) × ((port : Option ℕ) → ¬ IsNumberIfAny 65535 (text_of value.entry) port)) }
{
    match value {
        Some(text) => match number(text, PORT_LIMIT) {
            Some(port) => Ok(Some(port)),
            None => Err(WordsErr::Usage),
        },
        None => Ok(None),
    }
}

fn number(text: &str, limit: u16) -> Option<u16>
    ensures some { IfSome result (IsNumber limit text.now) }
    ensures none { IfNone result ((number : ℕ) → ¬ IsNumber limit text.now number) }
{
    let bytes = text.as_bytes();
    if bytes.is_empty() || bytes[0] == b'0' || bytes[0] == b'+' {
        return None;
    }
    match text.parse::<u16>() {
        Ok(number) if number >= 1 && number <= limit => Some(number),
        _ => None,
    }
}

/// The apps that a value lists, beside this app, and none where there is no value.
fn peers_of(alloc: Global, app: &str, value: Option<&str>) -> Result<PeerList, WordsErr>
    ensures ok { IfOk result (ArePeers app.now (text_of value.entry)) }
    ensures usage { IsErrOf result WordsErr.Usage → (peers : List Peer) → ¬ ArePeers app.now (text_of value.entry) peers }
{
    match value {
        Some(text) => match read_peers(alloc, app, text) {
            Ok(peers) => Ok(peers),
            Err(PeersErr::NoList) => Err(WordsErr::Usage),
            Err(PeersErr::NoMemory) => Err(WordsErr::NoMemory),
        },
        None => Ok(PeerList::new(alloc)),
    }
}

fn copy(alloc: Global, text: Option<&str>) -> Result<Option<Text>, NoMemory>
    ensures { IfOk result (λ copy. copy ≡ text_of text.entry) }
{
    match text {
        Some(text) => Ok(Some(Text::from_str(alloc, text)?)),
        None => Ok(None),
    }
}
