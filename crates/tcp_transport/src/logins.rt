//! With which words a Sentinel logs in to the data nodes of each master, and to the ports of the other Sentinels.

ghost use Rattle.std.specs.Prelude.{◌≡◌, ◌++◌, ◌∷◌, [], map, slice_get, IfOk, OnOk};
ghost use Rattle.sentinel_conf.specs.Watch.WatchConfs.{sent_pass, sent_user};
ghost use Rattle.links.specs.Speaking.{login_bytes};
ghost use Rattle.tcp_transport.specs.Logins.{login_in, sent_as, sent_for};

use ballot_law::{Roster, Watched};
use links::Login;
use sentinel_conf::WatchConf;
use std::alloc::{AllocError, Global};
use std::marker::Model;

/// A login: an empty password is none, an empty user the default one. Contracts see the bytes of both.
#[derive(Drop)]
struct KeptLogin {
    user: Vec<u8>,
    pass: Vec<u8>,
}

impl Model for KeptLogin {
    ghost use Rattle.tcp_transport.specs.Logins.{Words};

    ghost Value = { Words };

    ghost view = { λ login. record { user = login.user.items; pass = login.pass.items } };
}

impl KeptLogin {
    /// With these words.
    fn of(alloc: Global, user: &[u8], pass: &[u8]) -> Result<KeptLogin, AllocError>
        ensures { IfOk result (λ login. login ≡ record { user = user.now; pass = pass.now }) }
    {
        Ok(KeptLogin {
            user: Vec::from_slice(alloc, user)?,
            pass: Vec::from_slice(alloc, pass)?,
        })
    }

    /// As a connection sends it.
    fn login(&self) -> Login<'_>
        ensures { login_bytes result ≡ sent_as self.now }
    {
        if self.pass.is_empty() {
            return Login::Without;
        }
        if self.user.is_empty() {
            return Login::Pass(self.pass.as_slice());
        }
        Login::User(self.user.as_slice(), self.pass.as_slice())
    }
}

/// The logins to the data nodes by the number of the master, and the one to all other Sentinels. They are shown
/// nowhere.
#[derive(Drop)]
pub struct Logins {
    of_masters: Vec<KeptLogin>,
    of_sentinels: KeptLogin,
}

impl Logins {
    /// No node wants one.
    pub fn new(alloc: Global) -> Logins
        ensures masters { result.of_masters.items ≡ [] }
        ensures sentinels { result.of_sentinels ≡ record { user = []; pass = [] } }
    {
        Logins {
            of_masters: Vec::new(alloc),
            of_sentinels: KeptLogin {
                user: Vec::new(alloc),
                pass: Vec::new(alloc),
            },
        }
    }

    /// Those that the lines of a file say, which watches the masters of this roster. The error is a refused allocation.
    pub fn of(alloc: Global, roster: &Roster, watch: &WatchConf) -> Result<Logins, AllocError>
        ensures masters { IfOk result (λ logins. logins.of_masters.items ≡ map (login_in watch.now) roster.now.masters) }
        ensures sentinels { IfOk result (λ logins. logins.of_sentinels ≡ record { user = sent_user watch.now; pass = sent_pass watch.now }) }
    {
        let mut logins = Logins::new(alloc);
        let mut rest = roster.masters();
        while let [master, more @ ..] = rest {
            logins.add_said(alloc, watch, master)?;
            rest = more;
        }
        logins.set_sentinels(alloc, watch.sent_user(), watch.sent_pass())?;
        Ok(logins)
    }

    /// Adds the login of the next master, as the lines of a file say it.
    fn add_said(
        &mut self,
        alloc: Global,
        watch: &WatchConf,
        master: &Watched,
    ) -> Result<(), AllocError>
        ensures masters { OnOk result (self.new.of_masters.items
            ≡ self.old.of_masters.items ++ login_in watch.now master.now ∷ []) }
        ensures sentinels { self.new.of_sentinels ≡ self.old.of_sentinels }
    {
        let name = &master.name;
        self.add(alloc, watch.node_user(name), watch.node_pass(name))
    }

    /// Adds the login of the next master, in the roster's order: an empty password is none, an empty user the default
    /// one. The error is a refused allocation, which adds nothing.
    pub fn add(&mut self, alloc: Global, user: &[u8], pass: &[u8]) -> Result<(), AllocError>
        ensures masters { OnOk result (self.new.of_masters.items
            ≡ self.old.of_masters.items ++ record { user = user.now; pass = pass.now } ∷ []) }
        ensures sentinels { self.new.of_sentinels ≡ self.old.of_sentinels }
    {
        let login = KeptLogin::of(alloc, user, pass)?;
        self.of_masters.push(login)?;
        Ok(())
    }

    /// Has the ports of the other Sentinels get this login: an empty password is none, an empty user the default one.
    /// The error is a refused allocation, which changes nothing.
    pub fn set_sentinels(
        &mut self,
        alloc: Global,
        user: &[u8],
        pass: &[u8],
    ) -> Result<(), AllocError>
        ensures sentinels { OnOk result (self.new.of_sentinels ≡ record { user = user.now; pass = pass.now }) }
        ensures masters { self.new.of_masters ≡ self.old.of_masters }
    {
        self.of_sentinels = KeptLogin::of(alloc, user, pass)?;
        Ok(())
    }

    /// The login of the nodes of the master with this number.
    pub(crate) fn of_master(&self, master: u16) -> Login<'_>
        ensures { login_bytes result ≡ sent_for (slice_get self.now.of_masters.items master) }
    {
        match self.of_masters.get(master as usize) {
            Some(login) => login.login(),
            None => Login::Without,
        }
    }

    /// The login of the other Sentinels.
    pub(crate) fn of_sentinels(&self) -> Login<'_>
        ensures { login_bytes result ≡ sent_as self.now.of_sentinels }
    {
        self.of_sentinels.login()
    }
}
