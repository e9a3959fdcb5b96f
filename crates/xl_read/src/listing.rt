ghost use Rattle.std.specs.Prelude.{◌≡◌, ◌<◌, ◌≤◌, ◌+◌, ◌^◌, length, IfOk};
ghost use Rattle.spec_document.specs.Document.{kept_bytes};
ghost use Rattle.spec_file.specs.declared.TheConstants.{FILE_LIMIT};
ghost use Rattle.spec_file.specs.Placing.{passes};
ghost use Rattle.spec_fields.specs.Reading.{unless};
ghost use Rattle.spec_props.specs.Meaning.{kept_of};
ghost use Rattle.spec_props.specs.Reading.{properties_at};
ghost use Rattle.xl_fields.specs.Gives.{Gives};
ghost use Rattle.xl_read.specs.Listing.{Keeps};
ghost use Rattle.spec_document.specs.declared.TheConstants.{MAX_KEPT_BYTES};

use crate::kept::{payload_bytes, within};
use spec_document::Owner;
use std::alloc::Global;
use std::marker::{Model, PhantomData};
use xl_fields::{ReadRefused, ReadRefusedOrMemory};
use xl_props::{PropList, Props, read_props};

/// Who owns a list of properties.
pub trait Owned {
    ghost use Rattle.spec_document.specs.declared.Owner.{Owner};

    ghost owner: { Owner };

    fn owner() -> Owner
        ensures { result ≡ owner };
}

/// The properties that stand at an offset of a file.
#[derive(Drop)]
pub struct Listing<'a, O: Owned> {
    file: &'a [u8],
    at: usize,
    pub(crate) props: Props,
    owner: PhantomData<O>,
}

impl<'a, O: Owned> Model for Listing<'a, O> {
    ghost use Rattle.spec_props.specs.Reading.{Properties};
    ghost use Rattle.xl_read.specs.Listing.{listed, Keeps};

    ghost Value = { Properties };

    ghost view = { λ p. listed p.file.now O.owner p.at };

    ghost invariant = { λ p. Keeps O.owner (listed p.file.now O.owner p.at) p.props };
}

impl<'a, O: Owned> Listing<'a, O> {
    /// The list at an offset, or its first fault.
    #[tactic(auto, using(crate::proofs::Listings::keeps), unfolding(crate::specs::Listing::listed))]
    pub fn read(
        alloc: Global,
        file: &'a [u8],
        at: usize,
    ) -> Result<Listing<'a, O>, ReadRefusedOrMemory>
        requires short { length file.now ≤ FILE_LIMIT }
        requires place { at ≤ 2 ^ 33 }
        ensures read { Gives result (properties_at file.now O.owner at) }
        ensures within { IfOk result (λ ps. ps.end + 8 ≤ length file.now) }
    {
        let props = read_props(alloc, file, at, O::owner())?;
        Ok(Listing {
            file,
            at,
            props,
            owner: PhantomData,
        })
    }

    /// The offset of the end's type word.
    pub fn end(&self) -> usize
        ensures value { result ≡ self.now.end }
        ensures small { result < FILE_LIMIT }
    {
        self.props.places.end
    }

    /// Refuses the first property whose payload takes what is kept past its limit, where so many bytes are kept before.
    #[tactic(auto, using(crate::proofs::Payloads::kept_rule, crate::proofs::Payloads::kept_count))]
    pub fn check_kept(&self, before: u64) -> Result<(), ReadRefused>
        requires { before ≤ MAX_KEPT_BYTES }
        ensures rule { result ≡ unless (passes O.owner before self.now.list) }
        ensures room { IfOk result (λ _. before + kept_bytes (kept_of O.owner self.now.list)
            ≤ MAX_KEPT_BYTES) }
    {
        within(&self.props.kept, &self.props.places.kept, before)
    }

    /// How many bytes of payload are kept.
    pub fn kept_bytes(&self) -> u64
        requires { kept_bytes (kept_of O.owner self.now.list) ≤ MAX_KEPT_BYTES }
        ensures { result ≡ kept_bytes (kept_of O.owner self.now.list) }
    {
        payload_bytes(&self.props.kept)
    }

    /// What the list says.
    pub fn into_props(self) -> Props
        ensures { Keeps O.owner self.entry result }
    {
        let Listing {
            file: _,
            at: _,
            props,
            owner: _,
        } = self;
        props
    }

    /// The properties that are kept.
    pub fn into_kept(self) -> PropList
        ensures { result ≡ kept_of O.owner self.entry.list }
    {
        let Props {
            known: _,
            kept,
            places: _,
            next: _,
        } = self.into_props();
        kept
    }
}
