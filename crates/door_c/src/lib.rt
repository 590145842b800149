// The exports for C: each hands over to the function of `door` that has its name, and promises the same. They are linked from target/staticlib/libdoor.a, which
// .ci/library writes. None has a `requires`, and nothing is assumed.
#![tactic(auto)]

ghost use Rattle.rules.specs.Call.{Posed};
ghost use Rattle.rules.specs.declared.Plan.{Plan};
ghost use Rattle.rules.specs.Answers.{Answered};
ghost use Rattle.rules.specs.Flat.{buffers};
ghost use Rattle.rules.specs.Promises.{MonitorLaunchPromise, MonitorStorePromise, MonitorMarkPromise, MonitorCallPromise};
ghost use Rattle.rules.specs.Promises.{MonitorAnnouncePromise, MonitorDiscoverPromise};

#[unsafe(no_mangle)]
pub extern "C" fn monitor_launch(
    memory: &mut [u8],
    table: &mut [u8],
    sheet: &mut [u8],
    n: usize,
    monitor_first: usize,
    monitor_count: usize,
    vmsa_page: usize,
    calling_page: usize,
    apic_id: u32,
    valid_below: usize,
) -> u32
    ensures { MonitorLaunchPromise n
        (record { first = monitor_first; count = monitor_count; vmsa = vmsa_page; calling = calling_page; apic = apic_id; valid = valid_below })
        (buffers memory.old table.old sheet.old)
        (record {
          answer = result;
          after = buffers memory.new table.new sheet.new;
        }) }
{
    door::monitor_launch(
        memory,
        table,
        sheet,
        n,
        monitor_first,
        monitor_count,
        vmsa_page,
        calling_page,
        apic_id,
        valid_below,
    )
}

#[unsafe(no_mangle)]
pub extern "C" fn monitor_store(
    memory: &mut [u8],
    table: &[u8],
    vmpl: u8,
    page: usize,
    offset: usize,
    bytes: &[u8],
) -> u32
    ensures { MonitorStorePromise vmpl page offset bytes.now table.now memory.old
        (record { answer = result; after = memory.new }) }
{
    door::monitor_store(memory, table, vmpl, page, offset, bytes)
}

#[unsafe(no_mangle)]
pub extern "C" fn monitor_mark(sheet: &mut [u8], number: usize, running: u8) -> u32
    ensures { MonitorMarkPromise number running sheet.old (record { answer = result; after = sheet.new }) }
{
    door::monitor_mark(sheet, number, running)
}

#[unsafe(no_mangle)]
pub extern "C" fn monitor_call(
    memory: &mut [u8],
    table: &mut [u8],
    sheet: &mut [u8],
    registers: &mut [u8],
    caller: usize,
) -> u32
    ensures { MonitorCallPromise caller
        (record {
          registers = registers.old;
          machine = buffers memory.old table.old sheet.old;
        })
        (record {
          answer = result;
          after = record {
            registers = registers.new;
            machine = buffers memory.new table.new sheet.new;
          };
        }) }
{
    door::monitor_call(memory, table, sheet, registers, caller)
}

#[unsafe(no_mangle)]
pub extern "C" fn monitor_announce(
    page: &mut [u8],
    base: u64,
    size: u64,
    area: u64,
    vmpl: u8,
) -> u32
    ensures { MonitorAnnouncePromise base size area vmpl page.old (record { answer = result; after = page.new }) }
{
    door::monitor_announce(page, base, size, area, vmpl)
}

#[unsafe(no_mangle)]
pub extern "C" fn monitor_discover(page: &[u8], fields: &mut [u8]) -> u32
    ensures { MonitorDiscoverPromise page.now fields.old (record { answer = result; after = fields.new }) }
{
    door::monitor_discover(page, fields)
}
