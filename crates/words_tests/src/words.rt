use side_base::{NoMemory, Text};
use sidecar_words::{Mode, Words, WordsErr, read_words};
use std::alloc::Global;
use std::test::Fail;

/// Words, and behind the arrow what they mean: app id, folder or `-`, port, port of the app or `-`, workers, peers or `-`, mode, and of a drill its two numbers; or `usage`.
static ROWS: [&str; 109] = [
    "--app-id a --stdio => a - 3500 - 4 - stdio",
    "--app-id=a --stdio => a - 3500 - 4 - stdio",
    "--stdio --app-id a => a - 3500 - 4 - stdio",
    "--app-id a => a - 3500 - 4 - serve",
    "--app-id a --resources-path d --check => a d 3500 - 4 - check",
    "--check --resources-path=d --app-id=a => a d 3500 - 4 - check",
    "--app-id a --dapr-http-port 1 --workers 64 => a - 1 - 64 - serve",
    "--dapr-http-port=65535 --app-id aZ09_- --workers=1 --stdio => aZ09_- - 65535 - 1 - stdio",
    "--app-id=--stdio => --stdio - 3500 - 4 - serve",
    "--app-id=-a => -a - 3500 - 4 - serve",
    "--app-id a --resources-path=x=y => a x=y 3500 - 4 - serve",
    "--app-id a --resources-path=-d => a -d 3500 - 4 - serve",
    "--app-id 0123456789012345678901234567890123456789012345678901234567890123 => 0123456789012345678901234567890123456789012345678901234567890123 - 3500 - 4 - serve",
    "--app-id 01234567890123456789012345678901234567890123456789012345678901234 => usage",
    "--stdio => usage",
    "--app-id a --stdio --check => usage",
    "--app-id a --resources-path d --stdio --check => usage",
    "--app-id a --app-id b => usage",
    "--app-id a --app-id=a => usage",
    "--app-id a --stdio --stdio => usage",
    "-x => usage",
    "--app-id a -x => usage",
    "--app-id a - => usage",
    "--app-id a -- => usage",
    "--app-id a -- --stdio => usage",
    "--app-id -a => usage",
    "--app-id --stdio => usage",
    "--app-id => usage",
    "--app-id= => usage",
    "--app-id  --stdio => usage",
    "--app-id a.b => usage",
    "--app-id \u{e9} => usage",
    "--app-id a --check => usage",
    "--app-id a --resources-path= => usage",
    "--app-id a --resources-path= --check => usage",
    "--app-id a --stdio=x => usage",
    "--app-id a --stdio= => usage",
    "--app-id a --dapr-http-port 0 => usage",
    "--app-id a --dapr-http-port 65536 => usage",
    "--app-id a --dapr-http-port 08 => usage",
    "--app-id a --dapr-http-port +8 => usage",
    "--app-id a --dapr-http-port=-8 => usage",
    "--app-id a --dapr-http-port= => usage",
    "--app-id a --dapr-http-port 8x => usage",
    "--app-id a --workers 0 => usage",
    "--app-id a --workers 65 => usage",
    "--app-id a --help => usage",
    "--app-id a --version => usage",
    "--app-id a --app-port 8080 => a - 3500 8080 4 - serve",
    "--app-port=1 --app-id a --stdio => a - 3500 1 4 - stdio",
    "--app-id a --app-port 65535 --dapr-http-port 65535 => a - 65535 65535 4 - serve",
    "--app-id a --app-port 80 --resources-path d --check => a d 3500 80 4 - check",
    "--app-id a --app-port 80 --drill 1,0 => a - 3500 80 4 - drill 1 0",
    "--app-id a --app-port 0 => usage",
    "--app-id a --app-port 65536 => usage",
    "--app-id a --app-port 080 => usage",
    "--app-id a --app-port +80 => usage",
    "--app-id a --app-port=-80 => usage",
    "--app-id a --app-port 80x => usage",
    "--app-id a --app-port= => usage",
    "--app-id a --app-port => usage",
    "--app-port 80 => usage",
    "--app-id a --app-port 80 --app-port 80 => usage",
    "--app-id a --peers b=c:1 => a - 3500 - 4 b=c:1 serve",
    "--app-id a --peers=b=127.0.0.1:65535,c-_9=host.of-c:1 --stdio => a - 3500 - 4 b=127.0.0.1:65535,c-_9=host.of-c:1 stdio",
    "--peers b=c:1 --app-id a --drill 0,1 => a - 3500 - 4 b=c:1 drill 0 1",
    "--app-id a --peers a=c:1 => usage",
    "--app-id a --peers b=c:1,a=c:1 => usage",
    "--app-id a --peers b=c:1,b=d:2 => usage",
    "--app-id a --peers b=c:1, => usage",
    "--app-id a --peers ,b=c:1 => usage",
    "--app-id a --peers b=c:0 => usage",
    "--app-id a --peers b=c:01 => usage",
    "--app-id a --peers b=c => usage",
    "--app-id a --peers b:1 => usage",
    "--app-id a --peers =c:1 => usage",
    "--app-id a --peers b=:1 => usage",
    "--app-id a --peers b.c=d:1 => usage",
    "--app-id a --peers b=c_d:1 => usage",
    "--app-id a --peers= => usage",
    "--app-id a --peers => usage",
    "--peers b=c:1 => usage",
    "--app-id a --peers b=c:1 --peers d=e:2 => usage",
    "--app-id a --drill 1,0 => a - 3500 - 4 - drill 1 0",
    "--drill=18446744073709551615,99999 --app-id a => a - 3500 - 4 - drill 18446744073709551615 99999",
    "--app-id a --drill=007,0000005 => a - 3500 - 4 - drill 7 5",
    "--app-id a --resources-path d --dapr-http-port 80 --workers 2 --drill 1,1 => a d 80 - 2 - drill 1 1",
    "--drill 1,0 => usage",
    "--app-id a --drill => usage",
    "--app-id a --drill= => usage",
    "--app-id a --drill 1 => usage",
    "--app-id a --drill 1, => usage",
    "--app-id a --drill ,1 => usage",
    "--app-id a --drill , => usage",
    "--app-id a --drill 1,2,3 => usage",
    "--app-id a --drill +1,2 => usage",
    "--app-id a --drill 1,+2 => usage",
    "--app-id a --drill=-1,2 => usage",
    "--app-id a --drill 1,-2 => usage",
    "--app-id a --drill 1;2 => usage",
    "--app-id a --drill 1x,2 => usage",
    "--app-id a --drill 18446744073709551616,2 => usage",
    "--app-id a --drill 1,100000 => usage",
    "--app-id a --drill 1,18446744073709551617 => usage",
    "--app-id a --drill 1,2 --drill 1,2 => usage",
    "--app-id a --drill 1,2 --stdio => usage",
    "--app-id a --resources-path d --check --drill 1,2 => usage",
    "--app-id a b => usage",
    "--app a => usage",
];

fn words_in(alloc: Global, text: &str) -> Result<Vec<Text>, NoMemory> {
    let mut words = Vec::new(alloc);
    for word in text.split(' ') {
        words.push(Text::from_str(alloc, word)?)?;
    }
    Ok(words)
}

fn mode_shown(alloc: Global, mode: Mode) -> Result<String, NoMemory> {
    match mode {
        Mode::Stdio => String::from_str(alloc, "stdio"),
        Mode::Check => String::from_str(alloc, "check"),
        Mode::Drill { start, requests } => format!(in alloc; "drill {start} {requests}"),
        Mode::Serve => String::from_str(alloc, "serve"),
    }
}

fn peers_shown(alloc: Global, words: &Words) -> Result<String, NoMemory> {
    let mut text = String::new(alloc);
    for i in 0..words.peers.len() {
        let peer = words.peers.at(i);
        let mark = if i == 0 { "" } else { "," };
        text.push_str(mark)?;
        text.push_str(peer.id.as_str())?;
        text.push_str("=")?;
        text.push_str(peer.host.as_str())?;
        text.push_str(format!(in alloc; ":{}", peer.port)?.as_str())?;
    }
    if text.is_empty() {
        text.push_str("-")?;
    }
    Ok(text)
}

fn app_port_shown(alloc: Global, words: &Words) -> Result<String, NoMemory> {
    match words.app_port {
        Some(port) => format!(in alloc; "{port}"),
        None => String::from_str(alloc, "-"),
    }
}

fn shown(alloc: Global, words: &Words) -> Result<String, NoMemory> {
    let folder = match &words.resources {
        Some(folder) => folder.as_str(),
        None => "-",
    };
    format!(in alloc;
        "{} {folder} {} {} {} {} {}",
        words.app.as_str(),
        words.port,
        app_port_shown(alloc, words)?.as_str(),
        words.workers,
        peers_shown(alloc, words)?.as_str(),
        mode_shown(alloc, words.mode)?
    )
}

fn answer(alloc: Global, words: &[Text]) -> Result<String, NoMemory> {
    match read_words(alloc, words) {
        Ok(words) => shown(alloc, &words),
        Err(WordsErr::Usage) => String::from_str(alloc, "usage"),
        Err(WordsErr::NoMemory) => Err(NoMemory),
    }
}

fn plays(alloc: Global, row: &str) -> Result<bool, NoMemory> {
    match row.split_once(" => ") {
        Some((text, wanted)) => {
            let words = words_in(alloc, text)?;
            Ok(answer(alloc, words.as_slice())?.as_str() == wanted)
        }
        None => Ok(false),
    }
}

/// A row whose first run finds no memory is run again.
fn holds(alloc: Global, row: &str) -> bool {
    match plays(alloc, row) {
        Ok(same) => same,
        Err(_) => plays(alloc, row).unwrap_or(false),
    }
}

#[test]
fn words_mean_what_the_table_says(rt: HostRuntime) -> Result<(), Fail> {
    for row in ROWS.as_slice() {
        assert!(&rt; holds(rt.alloc(), row));
    }
    Ok(())
}
