//! The request to serve a venue.

ghost use Rattle.std.specs.Prelude.{◌≡◌, is_some, IfOk, IfSome};
ghost use Rattle.venue_main.specs.Check.{AreRead};

use crate::failure::Failure;
use crate::files::Texts;
use crate::heads_file::{HeadsOut, open_heads};
use crate::market::Market;
use crate::operation::{KeptPaths, Operation};
use crate::refused::Refused;
use crate::service::Service;
use crate::trail_file::open_trail;
use crate::trail_place::TrailPlace;
use audit_trail::Files;
use sqlite::{Connection, File, FileStore};
use std::fs::File as SystemFile;

/// A market to serve.
#[derive(Drop)]
pub struct ServeRequest {
    pub market: Market,
    pub service: Service,
    pub kept: Option<StoredTrail>,
    pub operation: Operation,
}

/// The database for the rows of a venue, the files that are stored with them, and where heads are written.
#[derive(Drop)]
pub struct StoredTrail {
    pub conn: Connection<FileStore<File>>,
    pub files: Files,
    pub heads: Option<HeadsOut<SystemFile>>,
    pub place: TrailPlace,
}

/// The market of two files, and, where its rows are to be stored at a path, the database there with these files, and
/// the file of heads.
pub fn asked_for(
    rt: &HostRuntime,
    texts: Texts,
    service: Service,
    paths: KeptPaths,
    operation: Operation,
) -> Result<ServeRequest, Refused>
    ensures read { IfOk result (λ asked. AreRead texts.participants.items texts.instruments.items asked.market.participants asked.market.instruments) }
    ensures files { IfOk result (λ asked. IfSome asked.kept (λ kept. kept.files ≡ record { participants = texts.participants.items; instruments = texts.instruments.items })) }
    ensures stored { IfOk result (λ asked. is_some asked.kept ≡ is_some paths.trail) }
    ensures heads { IfOk result (λ asked. IfSome asked.kept (λ kept. is_some kept.heads ≡ is_some paths.heads)) }
    ensures service { IfOk result (λ asked. asked.service ≡ service) }
    ensures operation { IfOk result (λ asked. asked.operation ≡ operation) }
{
    let market = match Market::read(rt.alloc(), &texts.participants, &texts.instruments) {
        Ok(market) => market,
        Err(fault) => return Err(Refused::over(rt.alloc(), &texts, Failure::from(fault))),
    };
    match kept_for(rt, texts, paths) {
        Ok(kept) => Ok(ServeRequest {
            market,
            service,
            kept,
            operation,
        }),
        Err(refused) => {
            drop(market);
            Err(refused)
        }
    }
}

/// The database at the path of a trail and the file of heads, where one is given.
fn kept_for(
    rt: &HostRuntime,
    texts: Texts,
    paths: KeptPaths,
) -> Result<Option<StoredTrail>, Refused>
    ensures stored { IfOk result (λ found. is_some found ≡ is_some paths.trail) }
    ensures heads { IfOk result (λ found. IfSome found (λ kept. is_some kept.heads ≡ is_some paths.heads)) }
    ensures files { IfOk result (λ found. IfSome found (λ kept. kept.files ≡ record { participants = texts.participants.items; instruments = texts.instruments.items })) }
{
    let KeptPaths { trail, heads } = paths;
    match trail {
        Some(path) => Ok(Some(kept_at(rt, &path, &heads, texts)?)),
        None => Ok(None),
    }
}

fn kept_at(
    rt: &HostRuntime,
    path: &str,
    heads: &Option<String>,
    texts: Texts,
) -> Result<StoredTrail, Refused>
    ensures heads { IfOk result (λ kept. is_some kept.heads ≡ is_some heads.now) }
    ensures files { IfOk result (λ kept. kept.files ≡ record { participants = texts.participants.items; instruments = texts.instruments.items }) }
{
    let (conn, place) = open_trail(rt, path)?;
    let files = texts.into_files();
    match open_heads(rt, heads) {
        Ok(heads) => Ok(StoredTrail {
            conn,
            files,
            heads,
            place,
        }),
        Err(failure) => {
            drop(conn);
            Err(Refused::from(failure))
        }
    }
}
