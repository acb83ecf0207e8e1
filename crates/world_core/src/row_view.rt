//! What is told of a row of a payer's book.

ghost use Rattle.std.specs.Prelude.{◌≡◌, map, IfOk, IsSome};
ghost use Rattle.claim_profile.specs.Readable.{readable_header};
ghost use Rattle.world_core.specs.RowViews.{row_told, code_in};

use claim_profile::{RequestFault, Ruling, read_readable};
use envelope::TxnId;
use payer_book::Row;
use std::alloc::{AllocError, Global};
use std::marker::Model;

/// What is told of a row: its number, the code (103-A3) of its request, and the ruling of each place.
#[derive(Drop)]
pub struct RowView {
    id: TxnId,
    code: [u8; 2],
    rulings: Vec<Ruling>,
}

impl Model for RowView {
    ghost use Rattle.world_core.specs.RowViews.{RowTold};

    ghost Value = { RowTold };

    ghost view = { λ v. record { id = v.id; code = v.code; rulings = v.rulings.items } };
}

impl RowView {
    /// The number that the request came under.
    pub fn id(&self) -> TxnId
        ensures { result ≡ self.now.id }
    {
        self.id
    }

    /// The code of the request.
    pub fn code(&self) -> [u8; 2]
        ensures { result ≡ self.now.code }
    {
        self.code
    }

    /// The rulings, by place.
    pub fn rulings(&self) -> &[Ruling]
        ensures { result.now ≡ self.now.rulings }
    {
        self.rulings.as_slice()
    }
}

/// What is told of rows.
pub(crate) fn views_of(alloc: Global, rows: &[Row]) -> Result<Vec<RowView>, AllocError>
    ensures { IfOk result (λ views. views.items ≡ map row_told rows.now) }
{
    let mut views = Vec::new(alloc);
    for row in rows {
        views.push(view_of(alloc, row)?)?;
    }
    Ok(views)
}

/// What is told of a row.
fn view_of(alloc: Global, row: &Row) -> Result<RowView, AllocError>
    ensures { IfOk result (λ view. view ≡ row_told row.now) }
{
    let _answer = row.answer();
    let code = code_of(alloc, row.request())?;
    let rulings = Vec::from_slice(alloc, row.rulings())?;
    Ok(RowView {
        id: row.id(),
        code,
        rulings,
    })
}

/// The code of a readable request.
fn code_of(alloc: Global, request: &[u8]) -> Result<[u8; 2], AllocError>
    requires { IsSome (readable_header request.now) }
    ensures { IfOk result (λ code. code ≡ code_in (readable_header request.now)) }
{
    match read_readable(alloc, request) {
        Ok(transmission) => Ok(transmission.header().code()),
        Err(RequestFault::OutOfMemory) => Err(AllocError),
        Err(RequestFault::Unreadable) => unreachable!(),
    }
}
