//! Parts of the header of a readable request, cut from their places. A request is framed once, when it comes; who keeps it
//! knows that it is readable, and asks here.

ghost use Rattle.std.specs.Prelude.{◌≡◌, Some, IsSome};
ghost use Rattle.d0_header.specs.Request.{request_of};
ghost use Rattle.claim_profile.specs.Readable.{readable_header};

/// The BIN number (101-A1) of a readable request.
#[tactic(auto, using(crate::proofs::Headers::readable_long))]
pub fn bin_of(request: &[u8]) -> [u8; 6]
    requires { IsSome (readable_header request.now) }
    ensures value { result ≡ (request_of request.now).bin }
    ensures readable { readable_header request.now ≡ Some (request_of request.now) }
{
    let mut bin = [0; 6];
    bin.copy_from_slice(&request[..6]);
    bin
}

/// The code (103-A3) of a readable request.
#[tactic(auto, using(crate::proofs::Headers::readable_long, crate::proofs::Headers::readable_is))]
pub fn code_of(request: &[u8]) -> [u8; 2]
    requires { IsSome (readable_header request.now) }
    ensures value { result ≡ (request_of request.now).code }
    ensures readable { readable_header request.now ≡ Some (request_of request.now) }
{
    let mut code = [0; 2];
    code.copy_from_slice(&request[8..10]);
    code
}

/// The processor control number (104-A4) of a readable request.
#[tactic(auto, using(crate::proofs::Headers::readable_long, crate::proofs::Headers::readable_is))]
pub fn pcn_of(request: &[u8]) -> [u8; 10]
    requires { IsSome (readable_header request.now) }
    ensures value { result ≡ (request_of request.now).pcn }
    ensures readable { readable_header request.now ≡ Some (request_of request.now) }
{
    let mut pcn = [0; 10];
    pcn.copy_from_slice(&request[10..20]);
    pcn
}

/// The service provider ID qualifier (202-B2) of a readable request.
#[tactic(auto, using(crate::proofs::Headers::readable_long, crate::proofs::Headers::readable_is))]
pub fn qualifier_of(request: &[u8]) -> [u8; 2]
    requires { IsSome (readable_header request.now) }
    ensures value { result ≡ (request_of request.now).qualifier }
    ensures readable { readable_header request.now ≡ Some (request_of request.now) }
{
    let mut qualifier = [0; 2];
    qualifier.copy_from_slice(&request[21..23]);
    qualifier
}

/// The service provider ID (201-B1) of a readable request.
#[tactic(auto, using(crate::proofs::Headers::readable_long, crate::proofs::Headers::readable_is))]
pub fn provider_of(request: &[u8]) -> [u8; 15]
    requires { IsSome (readable_header request.now) }
    ensures value { result ≡ (request_of request.now).provider }
    ensures readable { readable_header request.now ≡ Some (request_of request.now) }
{
    let mut provider = [0; 15];
    provider.copy_from_slice(&request[23..38]);
    provider
}

/// How many transactions (109-A9) a readable request has.
#[tactic(auto, using(crate::proofs::Headers::readable_long, crate::proofs::Headers::readable_count, crate::proofs::Headers::readable_is))]
pub fn count_of(request: &[u8]) -> u8
    requires { IsSome (readable_header request.now) }
    ensures value { result ≡ (request_of request.now).count }
    ensures readable { readable_header request.now ≡ Some (request_of request.now) }
{
    request[20] - b'0'
}

/// The date of service (401-D1) of a readable request.
#[tactic(auto, using(crate::proofs::Headers::readable_long, crate::proofs::Headers::readable_is))]
pub fn date_of(request: &[u8]) -> [u8; 8]
    requires { IsSome (readable_header request.now) }
    ensures value { result ≡ (request_of request.now).date }
    ensures readable { readable_header request.now ≡ Some (request_of request.now) }
{
    let mut date = [0; 8];
    date.copy_from_slice(&request[38..46]);
    date
}
