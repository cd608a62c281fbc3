//! The parts of a run file as bytes, appended to a vector in which there is room for them.

ghost use Rattle.std.specs.Prelude.{◌≡◌, ◌<◌, ◌≤◌, length};
ghost use Rattle.runfile.specs.RunFile.{ask_bytes, keys_bytes, settings_bytes, trailer_bytes};
ghost use Rattle.compose.specs.Bytes.{HasRoom, Puts};
ghost use Rattle.compose.specs.Fields.{ask_of, request_size};

use crate::requests::Request;
use runfile::lengths;
use runfile::settings::Settings;

/// How many bytes the requests have in the file, and how many there are.
#[derive(Clone, Copy)]
pub(crate) struct Extent {
    pub(crate) size: usize,
    pub(crate) number: u32,
    ghost short: { size ≤ 65500 },
}

// Appends bytes, for which there is room.
fn put(file: &mut Vec<u8>, bytes: &[u8])
    requires room { HasRoom file.old (length bytes.now) }
    ensures put { Puts file.old bytes.now file.new }
{
    file.extend_from_slice(bytes).unwrap();
}

/// Appends the settings, with a spare byte 0.
pub(crate) fn put_settings(file: &mut Vec<u8>, settings: Settings)
    requires letter { settings.pile < 256 }
    requires room { HasRoom file.old 20 }
    ensures put { Puts file.old (settings_bytes 0 settings) file.new }
{
    put(file, &[settings.pile as u8, settings.regions]);
    put(file, &settings.interval.to_le_bytes());
    put(file, &settings.lines.to_le_bytes());
    put(file, &[settings.n, 0]);
    put(file, &settings.life.to_le_bytes());
    put_keys(file, settings.keys);
}

// Appends the keys.
fn put_keys(file: &mut Vec<u8>, keys: [u16; 4])
    requires room { HasRoom file.old 8 }
    ensures put { Puts file.old (keys_bytes keys) file.new }
{
    for key in keys {
        put(file, &key.to_le_bytes());
    }
}

/// Appends a request.
pub(crate) fn put_request(file: &mut Vec<u8>, request: Request)
    requires room { HasRoom file.old (request_size request) }
    ensures put { Puts file.old (ask_bytes (ask_of request)) file.new }
{
    match request {
        Request::Read { line } => {
            let [low, high] = line.to_le_bytes();
            put(file, &[b'r', low, high]);
        }
        Request::Write { line, load } => {
            let [low, high] = line.to_le_bytes();
            let bytes: [u8; 16] = load.into();
            put(file, &[b'w', low, high]);
            put(file, &bytes);
        }
    }
}

/// Appends the trailer of requests of this extent.
pub(crate) fn put_trailer(file: &mut Vec<u8>, requests: Extent)
    requires room { HasRoom file.old 16 }
    ensures put { Puts file.old (trailer_bytes requests.size requests.number) file.new }
{
    put(
        file,
        &((requests.size + lengths::SETTINGS) as u32).to_le_bytes(),
    );
    put(file, &(requests.size as u32).to_le_bytes());
    put(file, &requests.number.to_le_bytes());
    put(file, b"RUN1");
}
