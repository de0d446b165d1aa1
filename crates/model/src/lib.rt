// The register by value and all that it holds, requests and answers. Journals call a capability a pass.
#![tactic(auto)]

ghost use Rattle.std.specs.Prelude.{◌≡◌};
ghost use Rattle.model.specs.State.{blank_role, blank_capability, blank_session, fresh as freshRegister};
ghost use Rattle.model.specs.Requests.{refusal_number};

pub mod formed;

// What a capability is derived from, and what a session is opened on: a role or a capability, by number.
#[derive(Clone, Copy, PartialEq, Eq)]
pub enum Origin {
    Role(u8),
    Capability(u8),
}

#[derive(Clone, Copy, PartialEq, Eq)]
pub struct Role {
    pub founded: bool,
    pub domain: u8,
    pub permissions: u32,
    pub hours: u32,
    pub places: u16,
    pub devices: u16,
    pub appointed: u64,
}

#[derive(Clone, Copy, PartialEq, Eq)]
pub struct Capability {
    pub origin: Origin,
    pub creator: u8,
    pub permissions: u32,
    pub lent: u32,
    pub holders: u64,
    pub first: u32,
    pub last: u32,
    pub use_limit: u16,
    pub uses: u16,
    pub creation_limit: u16,
    pub creations: u16,
    pub hop_limit: u16,
    pub hops: u16,
    pub hours: u32,
    pub places: u16,
    pub devices: u16,
    pub revoked: bool,
}

#[derive(Clone, Copy, PartialEq, Eq)]
pub struct Session {
    pub active: bool,
    pub user: u8,
    pub on: Origin,
    pub hour: u8,
    pub place: u8,
    pub device: u8,
}

#[derive(Clone, Copy)]
pub struct Register {
    pub clock: u32,
    pub enrolled: u64,
    pub domains: [u8; 64],
    pub roles: [Role; 32],
    pub count: u16,
    pub capabilities: [Capability; 256],
    pub sessions: [Session; 64],
}

// Why a call is refused. `u32::from` gives the number.
#[derive(Clone, Copy, PartialEq, Eq)]
pub enum Refusal {
    Malformed,
    Range,
    Missing,
    Unchanged,
    Domain,
    Forbidden,
    Revoked,
    Expired,
    Context,
    Exhausted,
    Exceeds,
    Full,
    Past,
    Image,
    Broken,
    Room,
}

// The value of a call that is accepted, or why it is refused.
pub type Answer = Result<u32, Refusal>;

#[derive(Clone, Copy)]
pub struct Reply {
    pub answer: Answer,
    pub register: Register,
}

// A role or a capability as a request names it: any number that a line can hold. This is no instance of one type with `Origin`, which
// holds numbers in range: definitions see both numbers as natural ones, and one type would let either stand for the other.
#[derive(Clone, Copy)]
pub enum Named {
    Role(u32),
    Capability(u32),
}

#[derive(Clone, Copy)]
pub enum Change {
    Raise(u32),
    Lower(u32),
}

#[derive(Clone, Copy)]
pub struct Context {
    pub hour: u32,
    pub place: u32,
    pub device: u32,
}

// What `create` asks for: life, limits and the three context masks.
#[derive(Clone, Copy)]
pub struct Plan {
    pub first: u32,
    pub last: u32,
    pub uses: u32,
    pub creations: u32,
    pub hops: u32,
    pub hours: u32,
    pub places: u32,
    pub devices: u32,
}

// A request that changes only elements that it names: journal words with their arguments, in the specification's order. The arguments
// stand apart, since a struct for each word would be made once and taken apart once.
#[derive(Clone, Copy)]
pub enum LocalRequest {
    Enrol(u32, u32),
    Found(u32, u32, u32, u32, u32),
    Grant(u32, u32),
    Appoint(u32, u32),
    Dismiss(u32, u32),
    Clock(u32),
    Create(u32, Named, Context, Plan),
    Allow(u32, u32, u32),
    Lend(u32, u32, u32),
    Hand(u32, u32, u32),
    Open(u32, u32, Named, Context),
    Check(u32, u32, Context),
    Close(u32),
}

// A request that reads or changes the whole creation tree.
#[derive(Clone, Copy)]
pub enum TreeRequest {
    Withdraw(u32, u32),
    Amend(u32, u32, Change),
    Revoke(u32, u32),
    Same(u32, u32),
}

// The seventeen journal words with their arguments.
#[derive(Clone, Copy)]
pub enum Request {
    Local(LocalRequest),
    Tree(TreeRequest),
}

// The number of a refusal, as answers print it.
impl From<Refusal> for u32 {
    ghost from_gives = { λ why n. n ≡ refusal_number why };

    fn from(why: Refusal) -> u32 {
        match why {
            Refusal::Malformed => 1,
            Refusal::Range => 2,
            Refusal::Missing => 3,
            Refusal::Unchanged => 4,
            Refusal::Domain => 5,
            Refusal::Forbidden => 6,
            Refusal::Revoked => 7,
            Refusal::Expired => 8,
            Refusal::Context => 9,
            Refusal::Exhausted => 10,
            Refusal::Exceeds => 11,
            Refusal::Full => 12,
            Refusal::Past => 13,
            Refusal::Image => 14,
            Refusal::Broken => 15,
            Refusal::Room => 16,
        }
    }
}

// A role before it is founded.
pub fn blank_role() -> Role
    ensures { result ≡ blank_role }
{
    Role {
        founded: false,
        domain: 0,
        permissions: 0,
        hours: 0,
        places: 0,
        devices: 0,
        appointed: 0,
    }
}

// A capability before it is created.
pub fn blank_capability() -> Capability
    ensures { result ≡ blank_capability }
{
    Capability {
        origin: Origin::Role(0),
        creator: 0,
        permissions: 0,
        lent: 0,
        holders: 0,
        first: 0,
        last: 0,
        use_limit: 0,
        uses: 0,
        creation_limit: 0,
        creations: 0,
        hop_limit: 0,
        hops: 0,
        hours: 0,
        places: 0,
        devices: 0,
        revoked: false,
    }
}

// A session before it is opened.
pub fn blank_session() -> Session
    ensures { result ≡ blank_session }
{
    Session {
        active: false,
        user: 0,
        on: Origin::Role(0),
        hour: 0,
        place: 0,
        device: 0,
    }
}

// "A fresh register has clock 0 and nothing else."
pub fn fresh() -> Register
    ensures { result ≡ freshRegister }
{
    let role = blank_role();
    let capability = blank_capability();
    let session = blank_session();
    Register {
        clock: 0,
        enrolled: 0,
        domains: [0; 64],
        roles: [role; 32],
        count: 0,
        capabilities: [capability; 256],
        sessions: [session; 64],
    }
}
