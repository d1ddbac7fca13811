ghost use Rattle.am_swap_pieces.specs.Answers.{Finds, FindsExactly, Gives};
ghost use Rattle.am_swap_codec.specs.Counts.{AreCounted};
ghost use Rattle.am_swap_codec.specs.Decodes.{Decodes, reads_as_body};
ghost use Rattle.am_swap_pieces.specs.Answers.{behind};
ghost use Rattle.am_swap_codec.specs.Parts.{arrivals_at, head_at, queues_at, tables_at};
ghost use Rattle.am_swap_image.specs.Image.{image};
ghost use Rattle.am_swap_image.specs.Range.{IsInRange};
ghost use Rattle.am_swap_image.specs.Reading.{body_at, whole_body};
ghost use Rattle.std.specs.Prelude.{◌≡◌, ◌++◌, IfErr, IfOk, OnOk, true};

use am_model::{Awaited, Mapping, Notice, Queued};
use am_names::{EndpointId, Message, Tag};
use am_office_entries::{HandlerKind, NoMemory};
use am_swap_pieces::{
    ImageFault, all_in_range, head_in_range, pass_counted, pass_many, put_counted, put_each,
    put_long, put_magic, put_short, take_counted, take_long, take_magic, take_many, take_short,
};
use std::alloc::{AllocError, Global};
use std::marker::Model;

/// The body of an endpoint as lists, with nothing in flight. Contracts see the body that the machine's definitions
/// speak of.
#[derive(Drop)]
pub struct BodyLists {
    /// The own tag.
    pub tag: Tag,
    /// What the handlers that add have summed up, modulo 2^64.
    pub sum: u64,
    /// How many messages it accepted.
    pub accepted: u32,
    /// What each of the 16 indexes is mapped to.
    pub mapped: Vec<Option<Mapping>>,
    /// The records in order of acceptance, at most 32.
    pub awaited: Vec<Awaited>,
    /// What each of the 16 handlers does.
    pub handlers: Vec<Option<HandlerKind>>,
    pub requests: Vec<Queued>,
    pub replies: Vec<Queued>,
    pub notices: Vec<Notice>,
    pub received: Vec<Message>,
}

impl Model for BodyLists {
    ghost use Rattle.am_model.specs.Endpoint.{Body};

    ghost Value = { Body };

    ghost use Rattle.am_swap_codec.specs.Lists.{body_in};

    ghost view = { body_in };
}

/// Writes the image of a body at the end of `out`.
fn put_image(out: &mut Vec<u8>, lists: &BodyLists) -> Result<(), AllocError>
    requires { AreCounted lists.now }
    ensures { OnOk result (out.new.items ≡ out.old.items ++ image lists.now) }
{
    put_magic(out)?;
    put_long(out, lists.tag.0)?;
    put_long(out, lists.sum)?;
    put_short(out, lists.accepted)?;
    put_each(out, &lists.mapped)?;
    put_counted(out, &lists.awaited)?;
    put_each(out, &lists.handlers)?;
    put_counted(out, &lists.requests)?;
    put_counted(out, &lists.replies)?;
    put_counted(out, &lists.notices)?;
    put_counted(out, &lists.received)?;
    Ok(())
}

impl BodyLists {
    /// The numbers of the body take no more bytes than the image has for them, since their types don't. Nothing runs here.
    pub fn in_range(&self)
        ensures { IsInRange self.now }
    {
        head_in_range(self.tag, self.sum, self.accepted);
        all_in_range(&self.mapped);
        all_in_range(&self.awaited);
        all_in_range(&self.handlers);
        all_in_range(&self.requests);
        all_in_range(&self.replies);
        all_in_range(&self.notices);
        all_in_range(&self.received);
    }
}

impl BodyLists {
    /// The image of the body.
    pub fn written(&self, alloc: Global) -> Result<Vec<u8>, NoMemory>
        requires { AreCounted self.now }
        ensures { IfOk result (λ bytes. bytes.items ≡ image self.now) }
    {
        let mut out = Vec::new(alloc);
        match put_image(&mut out, self) {
            Ok(()) => Ok(out),
            Err(_) => Err(NoMemory),
        }
    }
}

impl BodyLists {
    /// The valid body of the endpoint, with this pool or none, whose image the bytes are. `None` exactly where there is
    /// none; want of memory only of bytes that read as a body.
    pub fn decoded(
        alloc: Global,
        id: EndpointId,
        pool: Option<u8>,
        bytes: &[u8],
    ) -> Result<Option<BodyLists>, NoMemory>
        ensures found { IfOk result (λ found. Decodes id pool bytes.now found) }
        ensures no_memory { IfErr result (λ fault. reads_as_body id bytes.now ≡ true) }
    {
        match take_whole(alloc, id, bytes) {
            Err(ImageFault::NoMemory) => Err(NoMemory),
            Err(ImageFault::NoBody) => Ok(None),
            Ok(lists) => {
                if lists.is_valid(id, pool) {
                    Ok(Some(lists))
                } else {
                    Ok(None)
                }
            }
        }
    }
}

// The tag, the sum and how many messages were accepted.
type Head = ((u64, u64), u32);

// The mappings, the records and the handlers.
type Tables = (
    (Vec<Option<Mapping>>, Vec<Awaited>),
    Vec<Option<HandlerKind>>,
);

#[tactic(auto, unfolding(crate::specs::Parts::head_at))]
fn take_head(bytes: &[u8]) -> Option<(Head, &[u8])>
    ensures { Gives (λ x. (x.0, x.1.now)) result (head_at bytes.now) }
{
    let rest = take_magic(bytes)?;
    let (tag, rest) = take_long(rest)?;
    let (sum, rest) = take_long(rest)?;
    let (accepted, rest) = take_short(rest)?;
    Some((((tag, sum), accepted), rest))
}

#[tactic(auto, unfolding(crate::specs::Parts::tables_at))]
fn take_tables(alloc: Global, id: EndpointId, bytes: &[u8]) -> Result<(Tables, &[u8]), ImageFault>
    ensures { Finds (λ x. (((x.0.0.0.items, x.0.0.1.items), x.0.1.items), x.1.now)) result (tables_at id bytes.now) }
{
    let (mapped, rest) = take_many(alloc, id, 16, bytes)?;
    let (awaited, rest) = take_counted(alloc, id, rest)?;
    let (handlers, rest) = take_many(alloc, id, 16, rest)?;
    Ok((((mapped, awaited), handlers), rest))
}

// The requests and the replies that are queued.
#[tactic(auto, unfolding(crate::specs::Parts::queues_at))]
fn take_queues(
    alloc: Global,
    id: EndpointId,
    bytes: &[u8],
) -> Result<((Vec<Queued>, Vec<Queued>), &[u8]), ImageFault>
    ensures { Finds (λ x. ((x.0.0.items, x.0.1.items), x.1.now)) result (queues_at bytes.now) }
{
    let (requests, rest) = take_counted(alloc, id, bytes)?;
    let (replies, rest) = take_counted(alloc, id, rest)?;
    Ok(((requests, replies), rest))
}

// What came back, and what was received.
#[tactic(auto, unfolding(crate::specs::Parts::arrivals_at))]
fn take_arrivals(
    alloc: Global,
    id: EndpointId,
    bytes: &[u8],
) -> Result<((Vec<Notice>, Vec<Message>), &[u8]), ImageFault>
    ensures { Finds (λ x. ((x.0.0.items, x.0.1.items), x.1.now)) result (arrivals_at bytes.now) }
{
    let (notices, rest) = take_counted(alloc, id, bytes)?;
    let (received, rest) = take_counted(alloc, id, rest)?;
    Ok(((notices, received), rest))
}

/// The body at the front of some bytes, and the bytes behind it.
// Part by part: an early exit with all lists alive would be proved for each list.
#[tactic(auto, using(crate::proofs::InParts::body_by_parts))]
fn take_body(alloc: Global, id: EndpointId, bytes: &[u8]) -> Result<(BodyLists, &[u8]), ImageFault>
    ensures { Finds (λ x. (x.0, x.1.now)) result (body_at id bytes.now) }
{
    let Some((((tag, sum), accepted), rest)) = take_head(bytes) else {
        return Err(ImageFault::NoBody);
    };
    let (((mapped, awaited), handlers), rest) = take_tables(alloc, id, rest)?;
    let ((requests, replies), rest) = take_queues(alloc, id, rest)?;
    let ((notices, received), rest) = take_arrivals(alloc, id, rest)?;
    let lists = BodyLists {
        tag: Tag(tag),
        sum,
        accepted,
        mapped,
        awaited,
        handlers,
        requests,
        replies,
        notices,
        received,
    };
    Ok((lists, rest))
}

/// The bytes behind a body. It takes no memory.
#[tactic(auto, using(crate::proofs::InParts::behind_body))]
fn pass_body(id: EndpointId, bytes: &[u8]) -> Option<&[u8]>
    ensures { Gives (λ x. x.now) result (behind (body_at id bytes.now)) }
{
    let (_, rest) = take_head(bytes)?;
    let rest = pass_many::<Option<Mapping>>(id, 16, rest)?;
    let rest = pass_counted::<Awaited>(id, rest)?;
    let rest = pass_many::<Option<HandlerKind>>(id, 16, rest)?;
    let rest = pass_counted::<Queued>(id, rest)?;
    let rest = pass_counted::<Queued>(id, rest)?;
    let rest = pass_counted::<Notice>(id, rest)?;
    pass_counted::<Message>(id, rest)
}

/// Whether the bytes read as a body, valid or not. It takes no memory.
fn is_body(id: EndpointId, bytes: &[u8]) -> bool
    ensures { result ≡ reads_as_body id bytes.now }
{
    match pass_body(id, bytes) {
        None => false,
        Some(rest) => rest.is_empty(),
    }
}

/// The body that all of the bytes are the image of. Where memory runs out they are walked once more, without memory, so
/// that bytes which are no image are told as such.
#[tactic(auto, unfolding(am_swap_image::specs::Reading::whole_body))]
fn take_whole(alloc: Global, id: EndpointId, bytes: &[u8]) -> Result<BodyLists, ImageFault>
    ensures { FindsExactly (λ x. x) result (whole_body id bytes.now) }
{
    match take_body(alloc, id, bytes) {
        Ok((lists, [])) => Ok(lists),
        Err(ImageFault::NoMemory) if is_body(id, bytes) => Err(ImageFault::NoMemory),
        _ => Err(ImageFault::NoBody),
    }
}
