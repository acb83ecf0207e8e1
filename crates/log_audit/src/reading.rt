//! What is read before anything is judged: the settings, and the logs.

pub(crate) mod referring;

ghost use Rattle.std.specs.Prelude.{◌≡◌, ◌++◌, ◌∷◌, [], length, map, Some, None, Ok, IfOk, IfErr, OnOk};
ghost use Rattle.std.specs.Option.{option_copied, option_map};
ghost use Rattle.world_setup.specs.Taken.{world_fault};
ghost use Rattle.node_log.specs.LogSeen.{logs_seen};
ghost use Rattle.kept_logs.specs.Logs.{log_in};
ghost use Rattle.kept_logs.specs.LogSeen.{reading_seen};
ghost use Rattle.log_audit.specs.Given.{AreLogs, Given, IsRead, ReadsOne, bytes_of, digest_of, given_of, opened, read_given, rests_seen, torn_given, turned_given};
ghost use Rattle.log_audit.specs.Names.{misnamed_log};
ghost use Rattle.log_audit.specs.Refused.{AreNoLogs, IsNoLog, IsRefused};

use crate::fault::AuditFault;
use crate::reading::referring::check_references;
use kept_logs::{LogFault, ReadLog, SettingsDigest, read_log};
use node_log::NodeLog;
use payer_book::HashKeys;
use settings_digest::Digests;
use std::alloc::{AllocError, Global};
use world_settings::read_checked_settings;
use world_setup::CheckedSettings;

/// The settings of nodes, their logs, how many bytes of a torn end each log has, and what each begins with where it goes on after
/// closed ones. A log that has no place there begins with the opening of its node.
#[derive(Drop)]
pub struct Audited {
    pub(crate) text: Vec<u8>,
    pub(crate) settings: CheckedSettings,
    pub(crate) logs: Vec<NodeLog>,
    pub(crate) torn: Vec<usize>,
    pub(crate) rests: Vec<Option<Vec<u8>>>,
}

impl Audited {
    /// The settings.
    pub fn settings(&self) -> &CheckedSettings
        ensures { result.now ≡ self.now.settings }
    {
        &self.settings
    }

    /// The logs, in order.
    pub fn logs(&self) -> &[NodeLog]
        ensures { result.now ≡ self.now.logs.items }
    {
        self.logs.as_slice()
    }

    /// What each log begins with, where it goes on after closed ones, in the order of the logs.
    pub fn rests(&self) -> &[Option<Vec<u8>>]
        ensures { result.now ≡ self.now.rests.items }
    {
        self.rests.as_slice()
    }

    /// The same with one log more, which has no torn end.
    ///
    /// # Errors
    /// Memory was refused.
    pub fn with_log(self, log: NodeLog) -> Result<Audited, AllocError>
        ensures settings { IfOk result (λ audited. audited.settings ≡ self.settings) }
        ensures text { IfOk result (λ audited. audited.text ≡ self.text) }
        ensures logs { IfOk result (λ audited. audited.logs.items ≡ self.logs.items ++ log ∷ []) }
        ensures torn { IfOk result (λ audited. audited.torn.items ≡ self.torn.items ++ 0 ∷ []) }
        ensures rests { IfOk result (λ audited. audited.rests ≡ self.rests) }
    {
        let Audited {
            text,
            settings,
            mut logs,
            mut torn,
            rests,
        } = self;
        logs.push(log)?;
        torn.push(0)?;
        Ok(Audited {
            text,
            settings,
            logs,
            torn,
            rests,
        })
    }
}

/// A log, and what it begins with, where it goes on after closed ones.
#[derive(Drop)]
pub struct GivenLog {
    /// What it begins with.
    pub rest: Option<Vec<u8>>,
    /// The log.
    pub log: Vec<u8>,
}

/// Logs that begin with the opening of their nodes.
///
/// # Errors
/// Memory was refused.
pub fn opened(alloc: Global, logs: Vec<Vec<u8>>) -> Result<Vec<GivenLog>, AllocError>
    ensures { IfOk result (λ given. given_of given.items ≡ opened (bytes_of logs.items)) }
{
    let mut given = Vec::new(alloc);
    for log in logs {
        given.push(GivenLog { rest: None, log })?;
    }
    Ok(given)
}

/// Reads the settings, a TOML document, and each of the logs, which have the digest of its text or of what it says, and of what
/// they begin with. The bytes of a log are let go once it is read.
///
/// # Errors
/// The first that stands: `Settings`, `World`, `Reference` for the first log that has a reference which no node keeps, `Log` for
/// the first log that is none under these settings. `OutOfMemory` may stand in place of any answer.
#[tactic(auto, using(std::proofs::lemmas::Result::err_from_is_err_and, crate::proofs::Refusing::untaken_unread))]
pub fn read_audited(
    alloc: Global,
    text: Vec<u8>,
    logs: Vec<GivenLog>,
) -> Result<Audited, AuditFault>
    // What is judged is what the text spells and the logs are; their torn ends are what stands after the records that stand whole.
    ensures given { IfOk result (λ a. IsRead text.items (given_of logs.items) a.settings
        (logs_seen a.logs.items) (rests_seen a.rests.items) a.torn.items) }
    // A world takes the settings.
    ensures taken { IfOk result (λ a. world_fault a.settings ≡ None) }
    // Nothing but submissions has references, of at most 64 bytes, and no two have the same one, those before a log among them.
    ensures named { OnOk result (misnamed_log (digest_of text.items) (given_of logs.items) ≡ None) }
    // The cause is true, and those before it do not stand.
    ensures refused { IfErr result (λ why. IsRefused text.items (given_of logs.items) why) }
    // A schedule begins with the very text.
    ensures text { IfOk result (λ a. a.text.items ≡ text.items) }
{
    let settings = read_checked_settings(alloc, &HashKeys::fixed(), text.as_slice())?;
    let digests = Digests::of(alloc, settings.settings(), text.as_slice())?;
    check_references(alloc, &digests, logs.as_slice())?;
    let (read, rests) = read_each(alloc, &digests, logs)?;
    let ReadLogs { logs, torn } = read;
    Ok(Audited {
        text,
        settings,
        logs,
        torn,
        rests,
    })
}

/// Logs that were read, and how many bytes of a torn end each has.
#[derive(Drop)]
struct ReadLogs {
    logs: Vec<NodeLog>,
    torn: Vec<usize>,
}

impl ReadLogs {
    /// None yet.
    fn new(alloc: Global) -> ReadLogs
        ensures logs { result.logs.items ≡ [] }
        ensures torn { result.torn.items ≡ [] }
    {
        ReadLogs {
            logs: Vec::new(alloc),
            torn: Vec::new(alloc),
        }
    }

    /// Reads the next log, under settings of this digest.
    #[tactic(auto, using(crate::proofs::LogReading::reads_one))]
    fn read_next(
        &mut self,
        alloc: Global,
        digest: &SettingsDigest,
        bytes: &[u8],
    ) -> Result<(), AuditFault>
        ensures read { OnOk result (ReadsOne (log_in digest.now bytes.now) (length bytes.now)
            (logs_seen self.old.logs.items) self.old.torn.items (logs_seen self.new.logs.items) self.new.torn.items) }
        ensures refused { IfErr result (λ why. IsNoLog (log_in digest.now bytes.now) (length self.old.logs.items) why) }
    {
        let place = self.logs.len();
        let ReadLog { log, whole } = read_one(alloc, digest, place, bytes)?;
        self.push(log, bytes.len().saturating_sub(whole))?;
        Ok(())
    }

    /// One log more.
    fn push(&mut self, log: NodeLog, torn: usize) -> Result<(), AllocError>
        ensures logs { OnOk result (self.new.logs.items ≡ self.old.logs.items ++ log ∷ []) }
        ensures torn { OnOk result (self.new.torn.items ≡ self.old.torn.items ++ torn ∷ []) }
    {
        self.torn.push(torn)?;
        self.logs.push(log)?;
        Ok(())
    }
}

/// Reads each of the logs, in order; and what each begins with.
fn read_each(
    alloc: Global,
    digests: &Digests,
    logs: Vec<GivenLog>,
) -> Result<(ReadLogs, Vec<Option<Vec<u8>>>), AuditFault>
    ensures logs { IfOk result (λ r.
        AreLogs (read_given (turned_given digests.now)) (given_of logs.items) (logs_seen r.0.logs.items)) }
    ensures torn { IfOk result (λ r. r.0.torn.items ≡ map (torn_given (turned_given digests.now)) (given_of logs.items)) }
    ensures rests { IfOk result (λ r. rests_seen r.1.items ≡ map (λ (g : Given). g.rest) (given_of logs.items)) }
    ensures refused { IfErr result (λ why. AreNoLogs (read_given (turned_given digests.now)) (given_of logs.items) why) }
{
    let mut read = ReadLogs::new(alloc);
    let mut rests = Vec::new(alloc);
    for given in logs {
        let GivenLog { rest, log } = given;
        let bytes = log.as_slice();
        read.read_next(alloc, &digests.turned(bytes_in(&rest), bytes), bytes)?;
        rests.push(rest)?;
    }
    Ok((read, rests))
}

/// The bytes, where there are some.
pub(crate) fn bytes_in(rest: &Option<Vec<u8>>) -> Option<&[u8]>
    ensures { option_copied result ≡ option_map (λ bytes. bytes.items) rest.now }
{
    match rest {
        Some(bytes) => Some(bytes.as_slice()),
        None => None,
    }
}

/// Reads one log, which stands at this place among those handed in.
fn read_one(
    alloc: Global,
    digest: &SettingsDigest,
    place: usize,
    bytes: &[u8],
) -> Result<ReadLog, AuditFault>
    ensures read { IfOk result (λ read. log_in digest.now bytes.now ≡ Ok (reading_seen read)) }
    ensures refused { IfErr result (λ why. IsNoLog (log_in digest.now bytes.now) place why) }
{
    match read_log(alloc, digest, bytes) {
        Ok(read) => Ok(read),
        Err(LogFault::OutOfMemory) => Err(AuditFault::OutOfMemory),
        Err(fault) => Err(AuditFault::Log { place, fault }),
    }
}
