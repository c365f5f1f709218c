//! The index of the laws.
ghost use Rattle.std.specs.Prelude.{◌≡◌, ℕ, List, IsTrue};
ghost use Rattle.bz_base.specs.ModuleDeclarations.{IsRootDeclared};
ghost use Rattle.module_directives.specs.Readers.{declared_by};
ghost use Rattle.module_directives.specs.declared.readers.Role.{Role};
ghost use Rattle.module_host.specs.Meaning.{begun_host, module_meaning};
ghost use Rattle.module_host.specs.declared.hosts.ModuleHost.{ModuleHost};
ghost use Rattle.module_laws.specs.Kept.{IsKept, KeptByReply};
ghost use Rattle.star_core.specs.Heaps.{HeapState};
ghost use Rattle.star_core.specs.Hosts.{HostCall};
ghost use Rattle.star_core.specs.Tables.{Table};

/// Before its first directive a file declares well.
pub fn begun_hosts_are_kept()
    ensures { (file : List ℕ) (role : Role) → IsKept (begun_host file role).reader }
{}

/// Whatever is called, a file still declares well.
pub fn calls_keep_hosts()
    ensures { (host : ModuleHost) (heap : HeapState) (call : HostCall) (table : Table)
        → IsKept host.reader
        → KeptByReply (module_meaning host heap call table) }
{}

/// What is declared has good names, versions that read as themselves, levels and values.
pub fn declarations_are_good()
    ensures { (host : ModuleHost) → IsKept host.reader → IsRootDeclared (declared_by host.reader) }
{}
