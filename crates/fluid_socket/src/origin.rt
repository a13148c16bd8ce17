//! Which pages may connect.

use http::{Request, Response, StatusCode};
use std::alloc::Global;
use tungstenite::Callback;
use tungstenite::handshake::server::ErrorResponse;

/// Takes a handshake that names no origin, as those of programs do, or whose origins are all of this machine. Every other is
/// refused with 403: so no page that somebody visits can talk to the service.
#[derive(Drop)]
pub(crate) struct OwnOrigins {
    pub(crate) alloc: Global,
}

impl Callback for OwnOrigins {
    fn on_request(
        self,
        request: &Request<()>,
        response: Response<()>,
    ) -> Result<Response<()>, ErrorResponse> {
        let mut own = true;
        for origin in request.headers().get_all("origin") {
            own = own && is_own(origin.as_bytes());
        }
        if own {
            return Ok(response);
        }
        let mut refusal = Response::new(self.alloc, None);
        *refusal.status_mut() = StatusCode::FORBIDDEN;
        Err(refusal)
    }
}

// The hosts of this machine, as an origin writes them.
const OWN_HOSTS: [&[u8]; 3] = [b"localhost", b"127.0.0.1", b"[::1]"];

/// Whether an origin is a page of this machine: any scheme, exactly one of its hosts, any port or none.
pub(crate) fn is_own(origin: &[u8]) -> bool {
    let Some(place) = behind_scheme(origin) else {
        return false;
    };
    for host in OWN_HOSTS {
        if let Some(rest) = place.strip_prefix(host) {
            if is_port(rest) {
                return true;
            }
        }
    }
    false
}

// What stands behind the scheme of an origin.
fn behind_scheme(origin: &[u8]) -> Option<&[u8]> {
    let at = memchr::memchr(b':', origin)?;
    if at == 0 {
        return None;
    }
    origin[at..].strip_prefix(b"://".as_slice())
}

// Nothing, or a colon and digits.
fn is_port(bytes: &[u8]) -> bool {
    let Some((first, digits)) = bytes.split_first() else {
        return true;
    };
    *first == b':' && !digits.is_empty() && digits.iter().all(|digit| digit.is_ascii_digit())
}
