ghost use Rattle.std.specs.Prelude.{◌≡◌, ◌<◌, ◌^◌, map, IfOk};
ghost use Rattle.vip_config.specs.Configs.{vip_conf_of};
ghost use Rattle.vip_config.specs.Vips.{HasPorts};
ghost use Rattle.wire_core.specs.Members.{Each};

use crate::parts::{VipConf, VipList};
use config_text::{VipText, VipTextList};
use std::alloc::Global;
use wire_core::{Items, NoMemory};

fn narrow_vip(vip: VipText) -> VipConf
    requires low { vip.low < 2 ^ 16 }
    requires high { vip.high < 2 ^ 16 }
    ensures { result ≡ vip_conf_of vip }
{
    VipConf {
        address: vip.address,
        low: vip.low as u16,
        high: vip.high as u16,
        snat: vip.snat,
        endpoints: vip.endpoints,
    }
}

/// The VIPs with their ports as port numbers.
pub fn narrow_vips(alloc: Global, vips: VipTextList) -> Result<VipList, NoMemory>
    requires { Each HasPorts vips }
    ensures { IfOk result (λ confs. confs ≡ map vip_conf_of vips) }
{
    let mut confs = Vec::new(alloc);
    for vip in vips.into_vec() {
        confs.push(narrow_vip(vip))?;
    }
    Ok(Items::from_vec(confs))
}
